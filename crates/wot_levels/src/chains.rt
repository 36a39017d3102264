//! Whether an introducer may introduce a user ID: its scope admits it, and that of whoever delegated to it, and so on up.

ghost use Rattle.std.specs.Prelude.{◌≡◌, ◌||◌, Some, true, not, IfSome, IsSome};
ghost use Rattle.std.specs.FinMap as map;
ghost use Rattle.std.specs.Option.{option_copied, option_map_or};
ghost use Rattle.wot_types.specs.Candidates.{chain_admits, delegator};
ghost use Rattle.wot_types.specs.Scope.{admits};

use crate::introducers::Introducers;
use wot_regex::Asked;
use wot_scope::by_domain;
use wot_types::{KeyId, MOST_SCOPE, Options, Row, Rows, Scope, Text, is_same_scope};

/// The row of whoever delegated to an introducer, where it is of a lower level.
fn delegator<'a>(introducers: &Introducers<'a>, row: &Row) -> Option<&'a Row>
    ensures { option_copied result ≡ delegator introducers.now row.now }
{
    let above = introducers.get(row.via?)?;
    if above.level < row.level {
        Some(above)
    } else {
        None
    }
}

/// Whether a scope of the domain form, as nearly all are, admits a text: this is tested without reading it as an expression. None where it is of
/// another form, or too long for an expression.
fn domain_admits(scope: &Text, text: &Text) -> Option<bool>
    ensures { IfSome result (λ admitted. admitted ≡ admits (Some scope.now) text.now) }
{
    if scope.as_bytes().len() <= MOST_SCOPE {
        by_domain(scope, text)
    } else {
        None
    }
}

/// Whether a scope admits a text.
fn scope_admits(scope: &Text, text: &Text, asked: &mut Asked) -> bool
    ensures { result ≡ admits (Some scope.now) text.now }
{
    match domain_admits(scope, text) {
        Some(admitted) => admitted,
        None => asked.admits(scope, text),
    }
}

/// Whether an introducer's own scope admits a text.
fn is_in_scope(row: &Row, text: &Text, asked: &mut Asked) -> bool
    ensures { result ≡ admits row.now.scope text.now }
{
    match &row.scope {
        Some(scope) => scope_admits(scope.as_text(), text, asked),
        None => true,
    }
}

/// The same of a link of a chain, behind one whose scope admits the text: mostly it is the same scope.
fn is_in_scope_behind(before: Option<&Scope>, link: &Row, text: &Text, asked: &mut Asked) -> bool
    requires before { admits (option_copied before) text.now ≡ true }
    ensures { result ≡ admits link.now.scope text.now }
{
    is_same_scope(before, link.scope.as_ref()) || is_in_scope(link, text, asked)
}

/// Whether each scope along an introducer's chain admits a text. Levels fall along it, so it ends; where no row has a scope it isn't walked.
fn chain_admits<'a>(
    introducers: &Introducers<'a>,
    row: &'a Row,
    text: &Text,
    asked: &mut Asked,
) -> bool
    ensures { result ≡ chain_admits introducers.now row.now text.now }
{
    if row.scope.is_none() && !introducers.may_have_scopes() {
        return true;
    }
    let mut next = Some(row);
    let mut before = None;
    while let Some(link) = next {
        if !is_in_scope_behind(before, link, text, asked) {
            return false;
        }
        before = link.scope.as_ref();
        next = delegator(introducers, link);
    }
    true
}

/// A user ID's text is admitted where there are no scopes, or by the chain of the introducer with this row.
pub fn is_admitted<'a>(
    options: &Options,
    introducers: &Introducers<'a>,
    row: &'a Row,
    text: &Text,
    asked: &mut Asked,
) -> bool
    ensures { result ≡ (not options.now.pgp || chain_admits introducers.now row.now text.now) }
{
    !options.pgp || chain_admits(introducers, row, text, asked)
}

/// Whether the introducer with this key ID may introduce a user ID with this text. The classic model knows no scopes.
pub fn admits(options: &Options, rows: &Rows, id: KeyId, user: &Text, asked: &mut Asked) -> bool
    requires there { IsSome (map.get rows.now id) }
    ensures { IfSome (map.get rows.now id) (λ row. result ≡ (not options.now.pgp || chain_admits rows.now row user.now)) }
{
    let introducers = Introducers::all(rows);
    let row = introducers.get(id).unwrap();
    is_admitted(options, &introducers, row, user, asked)
}
