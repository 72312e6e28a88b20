//! The texts of the program about itself: the list of its commands, the help of each, and the exit statuses.

pub const VERSION: &str = "relay 0.2.0\n";

/// The list of all commands.
pub const USAGE: &str = "usage: relay COMMAND ..

Serve
  serve FILE                     run a server by a configuration
  edge FILE ADDRESS APP NAME     the same, and pull one stream of another server
  check-config FILE              check a configuration and print what it allows
  stats PATH [--json]            connections and streams of a running server
  stop PATH                      end a running server gently
Publish and play
  push ADDRESS APP NAME < FLV    publish a file or pipe at an RTMP server
  pull ADDRESS APP NAME > FLV    play a stream of an RTMP server as FLV
Files
  remux < FLV > TS               FLV to MPEG-TS
  check < TS                     list the frames of an MPEG-TS file
  segment NAME MS < FLV > M3U8   FLV to HLS segments of at least MS milliseconds
  hls NAME MS LAST < FLV         FLV to HLS while it is read, over reconnections
Without a network
  replay < SCRIPT                run recorded connections again
  drill < SCRIPT                 ask one stream, line by line
  soak N                         a long run that shows how much memory is held
  loop < FLV > FLV               a file through the relay and back

relay COMMAND --help      help for one command
relay help exit-codes     the exit statuses
relay --version           the version
";

pub const ABOUT: &str = "relay: a live video relay, whose rules are proved\n";

/// The last line of each command's help.
pub const MORE: &str = "Exit status: 0 for success; relay help exit-codes lists the others.\n";

/// Each command with its help.
pub const COMMANDS: [(&str, &str); 15] = [
    ("serve", SERVE),
    ("edge", EDGE),
    ("stats", STATS),
    ("stop", STOP),
    ("check-config", CHECK_CONFIG),
    ("drill", DRILL),
    ("replay", REPLAY),
    ("soak", SOAK),
    ("remux", REMUX),
    ("check", CHECK),
    ("segment", SEGMENT),
    ("hls", HLS),
    ("push", PUSH),
    ("pull", PULL),
    ("loop", LOOP),
];

const SERVE: &str = "usage: relay serve FILE

Runs a server as the configuration FILE says: encoders publish to it over RTMP,
players watch over RTMP or HTTP-FLV, and it records to files. Standard error
says where it listens, and has the log. With 'accept' set, the server exits when
the last accepted connection has closed; otherwise it runs until 'relay stop'.
Then it prints a line for each stream and each open application.

Environment:
  RELAY_LOG=LEVEL      what is logged on standard error: off, error, warn, info
                       or debug, each with those before it; default info
  RELAY_LOG_TIME=1     begins each line of the log with the date and the time
  RELAY_SILENCE=N      closes a publisher that sends nothing for N seconds, a
                       connection that neither publishes nor plays by then, and
                       a player that reads none of the data waiting for it for
                       3 times N; default 20, 8 for a publisher; 0 is never
  RELAY_WAIT=N         closes a player that waited N seconds for a broadcast;
                       default 0, which is never
  RELAY_ADDRESS_LINKS=N
                       the most connections of one IP address at a time; default
                       0, which is any number
  RELAY_SEND_BUFFER=N  bytes that the system buffers for each connection;
                       default 262144, and 0 is as many as it likes
  RELAY_GATHER=N       lets the data for a player wait up to N milliseconds for
                       more, so that fewer and larger packets are sent; default
                       0, at most 500
  RELAY_PROXIES=LIST   the IP addresses of HTTP proxies in front, with commas or
                       spaces between them: the log and stats tell the address
                       in their X-Forwarded-For; default none
  RELAY_CONTROL=PATH   the Unix socket for stats and stop, which only its owner
                       may use; default none
";

const EDGE: &str = "usage: relay edge FILE ADDRESS APP NAME
       relay edge FILE rtmp://ADDRESS/APP/NAME

Runs a server as 'relay serve FILE' does, and pulls the stream NAME of the
application APP from the RTMP server at ADDRESS, its origin. The first stream of
FILE broadcasts it. ADDRESS is HOST or HOST:PORT, as 127.0.0.1:1935: an IP
address, or a name that the system looks up once, at the start. The default port
is 1935. NAME may carry a key behind '?'; else RELAY_KEY is the key, or the
first line of the file RELAY_KEY_FILE. The log says when the origin plays the
stream and why it no longer does; the broadcast ends then, and the server goes
on. The report has one more line:

  edge E
      E is peerclosed, linkfault, badversion AT, badchunk CAUSE AT,
      badcontrol AT, badcommand AT or refused, by the origin; inuse if somebody
      else publishes here; noslot or worn.

'relay stop' ends the pull too. RELAY_SILENCE is also the time that the origin
has to start playing, and may send nothing during a broadcast.
";

const STATS: &str = "usage: relay stats PATH [--json]

Asks the server whose RELAY_CONTROL is PATH, and prints a line for each
connection, each stream and each recording: its address, what it does, its bytes
in each direction, its age, how far a player is behind its stream, in seconds,
what the players of a stream have missed, and what ended a recording. With
--json it prints the same as JSON. It gives up after 10 seconds without an
answer.
";

const STOP: &str = "usage: relay stop PATH

Tells the server whose RELAY_CONTROL is PATH to stop, and waits until it has
exited: it closes its listening sockets, publishers are closed, players are sent
what is left and the end of the stream, recordings are completed, and the report
is printed. It gives up if the server doesn't say within 10 seconds that it
stops. The script contrib/relay-run does the same at a signal.
";

const CHECK_CONFIG: &str = "usage: relay check-config FILE

Reads the configuration FILE as serve does, without listening or creating files.
Prints where the server would listen, its streams, and the most bytes that it
may hold at once, with their parts; or what is wrong, with line and column.
";

const DRILL: &str = "usage: relay drill < SCRIPT

Reads a script of calls at one stream, or at one open application, from standard
input, makes each call, and prints its reply as it goes.

Lines end with a line feed, which the last may lack. Words are separated by one
space. Empty lines and lines that begin with '#' are ignored. Numbers are
decimal digits without a sign or a leading zero.

  ring BYTES ITEMS PLAYERS
      Sets the window of the stream to at most BYTES bytes and ITEMS items, and
      its places to PLAYERS. It must precede all other lines, and prints
      nothing. The defaults are 33554432, 16384 and 256.
  pool SLOTS
      The script is for an open application with room for SLOTS names at a time:
      each has a slot, a stream with these limits. Only ring may precede it, and
      it prints nothing. After it, begin and join take a NAME; without it they
      take none.
  begin WHO, begin WHO NAME
      WHO begins to publish.
      began N              its Begin is item N
      inuse BY             BY publishes already
      noslot SLOTS         no slot has the name, and none is idle
  push WHO KIND TIME LEN
      WHO publishes a unit of LEN zero bytes at TIME milliseconds. KIND is
      meta, vconfig, aconfig, key, inter, spare, audio or data.
      pushed N             the unit is item N
      notpublisher LIVE    LIVE publishes, not WHO; - if nobody does
  end WHO
      WHO ends its broadcast.
      ended N              its End is item N
      notpublisher LIVE    as for push
  join WHO, join WHO NAME
      WHO becomes a player.
      joined PLAYER FROM   its place is PLAYER, and its position is item FROM
      full                 every place is taken
      noslot SLOTS         as for begin
  take WHO PLAYER WANT
      WHO takes what comes next at its place PLAYER. WANT is av for audio and
      video, a for audio only, v for video only, n for neither.
      item FROM N begin, item FROM N end, item FROM N KIND TIME LEN
                           it is sent item N; its position was item FROM
      skip FROM TO         item FROM has left the window; its position is now TO
      notyet END           there is nothing more; the stream has END items
      notplayer            the place isn't WHO's
  leave WHO PLAYER
      WHO gives its place PLAYER back.
      left PLAYER          the place is free
      notplayer            the place isn't WHO's
  count
      How many calls so far had these replies.
      counts BEGAN PUSHED ENDED JOINED SKIPS
  held
      How many bytes of bodies the stream holds: those of its window, and of the
      configurations in effect at the start of the window. For an open
      application: those of each slot, and the lengths of the slots' names.
      held BYTES

WHO and TIME are below 4294967296, PLAYER is below 256. LEN is at most 4194304,
and at most 65536 for meta, vconfig and aconfig. BYTES is at most 268435456,
ITEMS 1 to 65536, PLAYERS 1 to 256, and SLOTS 1 to 64. NAME is 1 to 64 letters,
digits, '.', '_' or '-'. An item costs its bytes and 64 more. A line has at most
65536 bytes, and a script at most 268435456.
";

const REPLAY: &str = "usage: relay replay < SCRIPT

Reads a script of connections from standard input, runs it with links and files
in memory, and prints what each connection was sent and how it ended. Sessions,
recorders, streams and open applications are numbered from 0, each kind in the
order of its lines.

  limits M R N P W
      A message has at most M bytes. The window of a stream has at most R bytes
      and N items, and each stream has P places for players. A peer is asked to
      acknowledge every W bytes. It must precede all other lines; the defaults
      are 4194304, 33554432, 16384, 256 and 2500000.
  stream APP NAME
      A stream. Anybody may publish and play it unless guard adds a key.
  guard S ROLE MODE KEY
      Adds a key for the publisher (ROLE publish) or the players (play) of
      stream S. MODE is plain, or digest if KEY is the 64 digits of the key's
      SHA-256. A stream has one mode.
  openapp APP N
      An open application: its streams aren't listed, and it has N names at a
      time.
  guardopen O ROLE MODE KEY
      The same as guard, for open application O. MODE may also be named: KEY is
      the 64 digits of the SHA-256 of a name, ':' and a key, valid for that name
      only.
  record S FORM
      A recorder of stream S. FORM is flv or ts (MPEG-TS).
  open
      A session. There are at most 64, and 64 streams and names together.
  openhttp
      An HTTP player, numbered among the sessions. Its input is its request.
  openedge S APP NAME
      An edge, numbered among the sessions: it publishes at stream S what its
      origin has as APP NAME. Its input is what that origin sends.
  in S HEX
      Adds the bytes HEX to the input of session S.
  eof S
      The link of session S ends after its input.
  room S N, room S all
      Session S may send N more bytes, or all.
  failrecv S, failsend S, failput R
      The next receive or send of session S, or the next put of recorder R,
      fails.
  turn S K, rec R K
      K turns of session S, or of recorder R.
  all K
      K rounds: a turn of each session, then of each recorder.
  quit S
      Session S is told to end.

The first six must precede all others. A session or recorder that has ended does
nothing more. APP and NAME are 1 to 64 letters, digits, '.', '_' or '-'. K is 1
to 1000000. It prints, with HEX as digits and - for no bytes:

  session S sent HEX
  session S end E
      E is none, peerclosed, linkfault, badversion AT, badchunk CAUSE AT,
      badcontrol AT, badcommand AT, toomanystreams AT, quit or worn. AT is the
      offset in its input. An HTTP player may also end by answered CODE, and an
      edge by refused or inuse.
  recorder R file HEX
  recorder R end E
      E is none, sinkfault, full or worn.
  stream S held BYTES, open O held BYTES
      as in drill
  held TOTAL sum SUM
      What all hold together, and the most that they may hold.
";

const SOAK: &str = "usage: relay soak N

Runs N units, 1 to 100000, over links in memory: one session publishes them, and
three play. It prints

  soak N
  pushed X             the stream took X units
  player P items I skips K bytes B
      Player P was sent I items in B bytes, and skipped K times.
  held TOTAL sum SUM
      as in replay
";

const REMUX: &str = "usage: relay remux < FLV > TS

Converts FLV to MPEG-TS: H.264 as access units, AAC in ADTS frames. Units of
other codecs, malformed units and units without a configuration are left out. A
file has at most 68719476736 bytes.
";

const CHECK: &str = "usage: relay check < TS

Reads MPEG-TS as remux writes it, and prints a line for each frame. Times are in
1/90000 second, and LEN is the frame's length in bytes.
  video PTS DTS LEN
  audio PTS LEN
  units N              the last line: there are N frames
A file has at most 68719476736 bytes.
";

const SEGMENT: &str = "usage: relay segment NAME MS < FLV > M3U8

Cuts FLV at keyframes into the MPEG-TS files NAME-0.ts, NAME-1.ts and so on, in
the current folder. Each but the last spans at least MS milliseconds. Standard
output has their playlist. A file gets its name when it is complete, and
replaces one of that name. NAME is 1 to 64 letters, digits, '.', '_' or '-', MS
is 1 to 3600000. There are at most 100000 segments.
";

const HLS: &str = "usage: relay hls NAME MS LAST < FLV

Cuts FLV at keyframes into the MPEG-TS files NAME-0.ts, NAME-1.ts and so on, in
the current folder, while it is read. As each file ends, the playlist NAME.m3u8
is replaced by one of the last LAST files, or of all files if LAST is 0. When the
times step back, as after an encoder's reconnection, the next keyframe begins a
file that the playlist marks. A file spans MS milliseconds, rounded up to whole
seconds, if the keyframes allow it. A file that has left the playlist is removed
when LAST + 1 further files have ended. NAME is 1 to 64 letters, digits, '.', '_'
or '-', MS is 1 to 3600000, LAST is 0 to 1000.
";

const PUSH: &str = "usage: relay push [--pace] ADDRESS APP NAME < FLV
       relay push [--pace] rtmp://ADDRESS/APP/NAME < FLV

Publishes the FLV of standard input as the stream NAME of the application APP at
the RTMP server at ADDRESS. ADDRESS is HOST or HOST:PORT, as 127.0.0.1:1935: an
IP address, or a name that the system looks up. The default port is 1935. NAME
may carry a key behind '?'. It connects when the first byte has come. A file has
at most 68719476736 bytes.

  --pace  sends each tag at its time in the film, as a live stream. A jump of
          that time by more than 10 seconds sets the clock anew. Without it the
          film is sent as fast as it can be read, and a server's recordings and
          players may miss a part of it: give it unless the input has a pace of
          its own. Without it, the last line says if the film went more than 10
          times as fast as it plays.

It succeeds if the server took the whole film. Then it waits for the server to
close the connection, for at most 8 seconds. If the connection fails in that
time, the status is 11; if the server sends a status of level error, it is 13.

Environment:
  RELAY_KEY=KEY        the key behind NAME, if NAME has none. Everybody on the
                       machine can read the words of a command, but not this
  RELAY_KEY_FILE=PATH  a file whose first line is the key
  RELAY_SILENCE=N      gives up if the server doesn't answer for N seconds, or
                       takes nothing for as long; default 20, 0 is never
  RELAY_LOG=LEVEL      with info, standard error says that it is connected, that
                       the film is taken, and every 10 seconds how much was
                       sent. On a terminal one line shows that, except with off
";

const PULL: &str = "usage: relay pull [--for SECONDS] [--from-zero] ADDRESS APP NAME > FLV
       relay pull [--for SECONDS] [--from-zero] rtmp://ADDRESS/APP/NAME > FLV

Plays the stream NAME of the application APP of the RTMP server at ADDRESS, and
writes each tag as FLV when it comes. ADDRESS is HOST or HOST:PORT, as
127.0.0.1:1935: an IP address, or a name that the system looks up. The default
port is 1935. It ends when the server says that the stream is over. NAME may
carry a key behind '?'.

  --for SECONDS  ends with status 0 after that time, counted from the connection
  --from-zero    gives the first audio or video frame the time 0, and each later
                 tag its distance to it. Without it a tag has the time that the
                 stream gives it

If it ends and no tag came, standard error says so, and the status is 0.

Environment:
  RELAY_KEY=KEY        the key behind NAME, if NAME has none. Everybody on the
                       machine can read the words of a command, but not this
  RELAY_KEY_FILE=PATH  a file whose first line is the key
  RELAY_SILENCE=N      gives up if the server doesn't answer for N seconds, or
                       sends nothing for as long during a broadcast; default 20,
                       0 is never. It waits for a broadcast for ever
  RELAY_LOG=LEVEL      with info, standard error says that it is connected, that
                       the stream begins, and every 10 seconds how much came. On
                       a terminal one line shows that, except with off
";

const LOOP: &str = "usage: relay loop < FLV > FLV

Sends the FLV of standard input through the relay and writes what comes back as
FLV. It opens no connection: one client publishes the file and another plays it,
over a stream of this program, on one thread. A file has at most 268435456
bytes. All of it is kept in memory, with some 300 bytes more for each tag.
";

pub const STATUS: &str = "Exit status:
  0   success. serve, edge: the server stopped, and its report is complete.
      soak: the run is done. push: the server took the film. pull: the stream
      or the time of --for ended. loop: the file came back
  2   the command line or an environment variable is wrong; nothing was read or
      written
  3   standard input or the configuration file could not be read
  4   the input is invalid: a script line is unknown or not allowed there, or
      the file is not of the expected format from byte PLACE on. The output for
      what precedes it is written, except by replay. serve, edge, check-config:
      the configuration is refused; standard output has the first test that it
      fails
  5   standard output could not be written; segment, hls: or a file
  6   out of memory
  7   an address or a file could not be had; serve, edge: or a thread for each
      worker, and nobody was served
  8   remux, segment, hls: the file was read to its end, and an audio or video
      frame was left out
  9   segment: there would be more than 100000 segments; loop: the file did not
      come back
  10  push, pull: the server closed the connection
  11  push, pull, stats, stop: there was no connection, it failed, or there was
      no answer
  12  push, pull: the server sent invalid RTMP at byte PLACE
  13  push, pull: the server refused the request; push: or it said at the end
      that there is an error

If it isn't 0, the last line on standard error is 'relay: status CODE at PLACE'.
With code 4 PLACE is the number of the script's line, from 1, or the offset in
the file; with 12 the offset of the invalid byte in what the server sent; else
0. Lines before it say why, unless the reader of a pipe has gone.
";
