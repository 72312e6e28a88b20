ghost use Rattle.std.specs.Prelude.{◌≡◌, IfOk, Ok};
ghost use Rattle.aac_adts.specs.Config.{Config, IsConfig, Begins, config_of, checked};

use crate::AacFail;
use relay_base::be16;
use std::marker::Model;

/// The content of an AudioSpecificConfig (ISO/IEC 14496-3, 1.6.2.1). It has the audio object type, 1 to 4,
/// the sampling frequency index, 0 to 12 (1.6.3.4), and the channel configuration, 1 to 7 (1.6.3.5).
#[derive(Clone, Copy)]
pub struct Asc {
    pub object: u8,
    pub index: u8,
    pub channels: u8,
}

impl Model for Asc {
    ghost use Rattle.aac_adts.specs.Config.{Config, IsConfig};

    ghost Value = { Config };

    ghost view = { λ a. record { object = a.object; index = a.index; channels = a.channels } };

    ghost invariant = { λ a. IsConfig (record { object = a.object; index = a.index; channels = a.channels }) };

    ghost inverse = { λ c. record { object = c.object; index = c.index; channels = c.channels } };
}

impl Asc {
    /// Reads an AudioSpecificConfig, of which the first 13 bits count. Refusals come in the order `Short`,
    /// `Object`, `Index`, `Channels`.
    #[tactic(auto, using(std::proofs::lemmas::Bool::Decides::nat_tests), unfolding(crate::specs::Config::config_of))]
    pub fn read(body: &[u8]) -> Result<Asc, AacFail>
        ensures exact { result ≡ config_of body.now }
        ensures found { IfOk result (λ a. IsConfig a × Begins body.now a) }
        ensures only { (a : Config) → IsConfig a → Begins body.now a → result ≡ Ok a }
    {
        if body.len() < 2 {
            return Err(AacFail::Short);
        }
        let start = be16(body);
        Asc::of(
            (start >> 11) as u8,
            ((start >> 7) % 16) as u8,
            ((start >> 3) % 16) as u8,
        )
    }

    /// Makes the configuration of these numbers, or refuses the first that is out of its range.
    #[tactic(auto, using(std::proofs::lemmas::Bool::Decides::nat_tests), unfolding(crate::specs::Config::checked))]
    fn of(object: u8, index: u8, channels: u8) -> Result<Asc, AacFail>
        ensures { result ≡ checked object index channels }
    {
        if object == 0 || object > 4 {
            return Err(AacFail::Object { n: object });
        }
        if index > 12 {
            return Err(AacFail::Index { n: index });
        }
        if channels == 0 || channels > 7 {
            return Err(AacFail::Channels { n: channels });
        }
        Ok(Asc {
            object,
            index,
            channels,
        })
    }
}
