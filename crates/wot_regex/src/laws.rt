//! Laws of expressions.

ghost use Rattle.std.specs.Prelude.{◌≡◌, ◌≤◌, ◌↔◌, ℕ, List, length, IsSome, IsTrue, Some};
ghost use Rattle.wot_types.specs.DomainForm.{domain_of};
ghost use Rattle.wot_types.specs.Scope.{admits, matches_in};
ghost use Rattle.wot_types.specs.DomainForm.{IsInDomain};
ghost use Rattle.wot_types.specs.Expression.{Tree};
ghost use Rattle.wot_types.specs.ExpressionGrammar.{IsExpression};
ghost use Rattle.wot_types.specs.ExpressionMatch.{Admits, MatchesIn};
ghost use Rattle.wot_types.specs.ExpressionReading.{tree_of};

/// A scope is read as a tree exactly where it is an expression of that tree.
pub fn expressions_are_read()
    ensures { (tree : Tree) (scope : List ℕ) → tree_of scope ≡ Some tree ↔ IsExpression tree scope }
{}

/// Each tree is the only one of its bytes.
pub fn one_tree()
    ensures { (a b : Tree) (scope : List ℕ) → IsExpression a scope → IsExpression b scope → a ≡ b }
{}

/// The marks find a match exactly where the expression matches somewhere.
pub fn marks_find_matches()
    ensures { (tree : Tree) (text : List ℕ) → IsTrue (matches_in tree text) ↔ MatchesIn tree text }
{}

/// The test of a scope and a text is whether the scope admits it.
pub fn scopes_are_tested()
    ensures { (scope text : List ℕ) → IsTrue (admits (Some scope) text) ↔ Admits scope text }
{}

/// On the domain form an expression admits what the domain does.
pub fn domain_forms_agree()
    ensures { (scope text : List ℕ) → IsSome (domain_of scope) → length scope ≤ 255 → Admits scope text ↔ IsInDomain scope text }
{}
