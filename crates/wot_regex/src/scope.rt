//! Whether a scope admits a user ID.

ghost use Rattle.std.specs.Prelude.{◌≡◌, ◌↔◌, IsTrue};
ghost use Rattle.wot_types.specs.Scope.{admits};
ghost use Rattle.wot_types.specs.ExpressionMatch.{Admits};

use crate::expr::read;
use crate::matching::matches;
use wot_types::Text;

/// Whether a scope is an expression that matches somewhere in the text. One that is no expression admits none.
// Not inlined, since it reads an expression.
#[inline(never)]
pub fn admits(scope: &Text, text: &Text) -> bool
    ensures value { result ≡ admits (Some scope.now) text.now }
    ensures means { IsTrue result ↔ Admits scope.now text.now }
{
    match read(scope.as_bytes()) {
        Some(expr) => matches(&expr, text.as_bytes()),
        None => false,
    }
}
