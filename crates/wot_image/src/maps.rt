//! Maps of the lists that are read.

ghost use Rattle.std.specs.Prelude.{◌≡◌, All, IfOk};
ghost use Rattle.std.specs.FinMap as map;
ghost use Rattle.wot_types.specs.Image.{current_rows};
ghost use Rattle.wot_types.specs.Rows.{with_rows};
ghost use Rattle.wot_types.specs.WellFormed.{IsWellFormed};
ghost use Rattle.wot_image.specs.States.{IsMadeOf};

use crate::image::Image;
use crate::stored::Stored;
use std::alloc::Global;
use wot_table::Table;
use wot_types::{Format, List, Mem, RULES, Row, Rows, Trusts};

/// The state and the rows that were read.
pub fn image_of(alloc: Global, stored: Stored) -> Result<Image, Mem>
    requires well_formed { All IsWellFormed stored.keys }
    ensures { IfOk result (λ image. IsMadeOf stored image) }
{
    Ok(Image {
        table: Table::unindexed(alloc).put_all(stored.keys)?,
        trusts: Trusts::new(alloc).set_all(stored.entries)?,
        date: stored.date,
        options: stored.options,
        rows: current_rows(stored.format, stored.rows)?,
    })
}

/// The rows of an image, where they were counted by the rules of now.
fn current_rows(format: Format, rows: List<Row>) -> Result<Option<Rows>, Mem>
    ensures { IfOk result (λ current. current ≡ current_rows format (with_rows map.empty rows)) }
{
    match format {
        Format::Third(RULES) => Ok(Some(Rows::of(rows)?)),
        _ => Ok(None),
    }
}
