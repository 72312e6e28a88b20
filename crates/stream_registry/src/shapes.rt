//! The shapes of a port's places: the streams, and after them the open tables.
ghost use Rattle.std.specs.Prelude.{◌≡◌, ◌<◌, ◌+◌, ◌++◌, ℕ, List, length, map, slice_get, Some, IfOk, OnOk};
ghost use Rattle.stream_model.specs.Shape.{stream_shape, pool_shape};
ghost use Rattle.stream_model.specs.declared.calls.StreamLimits.{StreamLimits};
ghost use Rattle.stream_registry.specs.declared.names.Name.{Name};
ghost use Rattle.stream_registry.specs.declared.names.OpenName.{OpenName};
ghost use Rattle.stream_registry.specs.Names.{AreFew, AreTables, shape_at, shapes_of};

use crate::names::{Name, NameList, OpenList, OpenName};
use av_unit::OutOfMemory;
use std::alloc::Global;
use stream_core::{Shape, StreamLimits};

/// The place of each name has a stream, and each place after those the pool of its open table.
pub fn places_law()
    ensures listed { (limits : StreamLimits) (names : List Name) (opens : List OpenName) (place : ℕ) → place < length names
        → shape_at (shapes_of limits names opens) place ≡ stream_shape limits }
    ensures pools { (limits : StreamLimits) (names : List Name) (opens : List OpenName) (table : ℕ) (o : OpenName)
        → slice_get opens table ≡ Some o → shape_at (shapes_of limits names opens) (length names + table) ≡ pool_shape limits o.slots }
{}

/// Gives the shape of each place, in order.
pub(crate) fn place_shapes(
    alloc: Global,
    names: &NameList,
    opens: &OpenList,
    limits: StreamLimits,
) -> Result<Vec<Shape>, OutOfMemory>
    requires { AreFew names.now opens.now }
    ensures shapes { IfOk result (λ list. list.items ≡ shapes_of limits names.now opens.now) }
    ensures tables { IfOk result (λ list. AreTables list.items) }
{
    let mut list = streams(alloc, names.as_slice(), limits)?;
    add_pools(&mut list, opens.as_slice(), limits)?;
    Ok(list)
}

fn streams(alloc: Global, names: &[Name], limits: StreamLimits) -> Result<Vec<Shape>, OutOfMemory>
    ensures { IfOk result (λ list. list.items ≡ map (λ n. stream_shape limits) names.now) }
{
    let mut list = Vec::new(alloc);
    for _name in names {
        list.push(Shape {
            limits,
            slots: None,
        })?;
    }
    Ok(list)
}

fn add_pools(
    list: &mut Vec<Shape>,
    opens: &[OpenName],
    limits: StreamLimits,
) -> Result<(), OutOfMemory>
    ensures { OnOk result (list.new.items ≡ list.old.items ++ map (λ o. pool_shape limits o.slots) opens.now) }
{
    for table in opens {
        list.push(Shape {
            limits,
            slots: Some(table.slots),
        })?;
    }
    Ok(())
}
