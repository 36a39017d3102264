//! The image of an engine's state.

ghost use Rattle.std.specs.Prelude.{◌≡◌, ◌<◌, ◌^◌, length, IfOk};
ghost use Rattle.wot_types.specs.WellFormedState.{IsWellFormedState};
ghost use Rattle.wot_pages.specs.Pages.{contents_for};
ghost use Rattle.wot_types.specs.Compaction.{image_length};
ghost use Rattle.wot_types.specs.Image.{image_bytes};
ghost use Rattle.wot_types.specs.Levels.{rows_of};
ghost use Rattle.wot_store.specs.Base.{IsBaseOf};

use std::alloc::Global;
use wot_image::spell;
use wot_live::Engine;
use wot_types::Mem;

/// Spells the state of an engine with its rows.
pub fn spell_state(alloc: Global, engine: &Engine) -> Result<Vec<u8>, Mem>
    requires sound { IsWellFormedState engine.now }
    ensures base { IfOk result (λ image. IsBaseOf (contents_for image.items) engine.now) }
    ensures spelled { IfOk result (λ image. image.items ≡ image_bytes engine.now (rows_of engine.now)) }
    ensures long { IfOk result (λ image. length image.items ≡ image_length engine.now) }
    ensures few { IfOk result (λ image. length image.items < 2 ^ 30) }
{
    spell(alloc, &engine.lent(), engine.rows())
}
