//! The rows of the tables of places that an office can have.

ghost use Rattle.std.specs.Prelude.{◌≡◌, true};
ghost use Rattle.std.specs.Option.{option_map_or};
ghost use Rattle.catalogue_core.specs.CatalogueCauses as causes;
ghost use Rattle.row_decoding.specs.PlaceReadings.{if_passes};

use crate::cells::{cell, number_in, number_of, number_or_null_of};
use crate::decoded_rows::FromCells;
use isad_core::Number;
use isad_core::limits::MOST_UNIT_NUMBERS;
use sqlite::Row;
use tree_core::{Link, Span};

/// Whether a unit may have the number: it is from 1 to `MOST_UNIT_NUMBERS`.
fn is_unit_number(n: Number) -> bool
    ensures { result ≡ causes.is_unit_number n }
{
    let n = n.get();
    1 <= n && n <= MOST_UNIT_NUMBERS
}

/// Whether a parent may have this number; a top has no parent, and so none may be given.
fn may_be_parent(parent: &Option<Number>) -> bool
    ensures { result ≡ option_map_or causes.is_unit_number parent.now true }
{
    match parent {
        None => true,
        Some(n) => is_unit_number(*n),
    }
}

/// Whether the number of a place fits into 32 bits.
fn is_place_number(n: u64) -> bool
    ensures { result ≡ causes.is_place_number n }
{
    n < 1 << 32
}

/// The link with these numbers, or none if a link may not have them.
fn link_of(id: Number, parent: Option<Number>, ord: u64) -> Option<Link>
    ensures { result ≡ if_passes causes.is_good_link (record { id = id; parent = parent; ord = ord }) }
{
    if is_unit_number(id) && may_be_parent(&parent) && is_place_number(ord) {
        Some(Link {
            id,
            parent,
            ord: ord as u32,
        })
    } else {
        None
    }
}

/// The span with these numbers, or none if a span may not have them.
fn span_of(id: Number, lft: u64, rgt: u64) -> Option<Span>
    ensures { result ≡ if_passes causes.is_good_span (record { id = id; lft = lft; rgt = rgt }) }
{
    if is_unit_number(id) && is_place_number(lft) && is_place_number(rgt) {
        Some(Span {
            id,
            lft: lft as u32,
            rgt: rgt as u32,
        })
    } else {
        None
    }
}

impl FromCells for Link {
    ghost use Rattle.tree_core.specs.declared.rows.Link.{Link as ToldLink};
    ghost use Rattle.row_decoding.specs.PlaceReadings.{link_in_answer};

    ghost Told = { ToldLink };

    ghost told = { λ link. link };

    ghost says = { link_in_answer };

    fn read(row: &Row) -> Option<Link> {
        let id = number_of(row, 0)?;
        let parent = number_or_null_of(row, 1)?;
        let ord = number_in(cell(row, 2))?;
        link_of(id, parent, ord)
    }
}

impl FromCells for Span {
    ghost use Rattle.tree_core.specs.declared.rows.Span.{Span as ToldSpan};
    ghost use Rattle.row_decoding.specs.PlaceReadings.{span_in_answer};

    ghost Told = { ToldSpan };

    ghost told = { λ span. span };

    ghost says = { span_in_answer };

    fn read(row: &Row) -> Option<Span> {
        let id = number_of(row, 0)?;
        let lft = number_in(cell(row, 1))?;
        let rgt = number_in(cell(row, 2))?;
        span_of(id, lft, rgt)
    }
}
