//! Which user IDs a trust signature's regular expression admits.

ghost use Rattle.std.specs.Prelude.{◌≡◌, true, false, Some, None, [], codes};
ghost use Rattle.wot_types.specs.ExpressionReading.{tree_of};
ghost use Rattle.wot_types.specs.Scope.{admits};

/// Worked: an expression of the domain form admits a user ID with an address in its domain or below it, and none of these others.
pub fn scopes_admit_their_domain()
    ensures inside { admits (Some (codes "<[^>]+[@.]example\\.org>$")) (codes "N <a@example.org>") ≡ true }
    ensures below { admits (Some (codes "<[^>]+[@.]example\\.org>$")) (codes "N <a@x.EXAMPLE.org>") ≡ true }
    ensures another { admits (Some (codes "<[^>]+[@.]example\\.org>$")) (codes "N <a@evilexample.org>") ≡ false }
    ensures no_address { admits (Some (codes "<[^>]+[@.]example\\.org>$")) (codes "a@example.org") ≡ false }
    ensures within { admits (Some (codes "<[^>]+[@.]example\\.org>$")) (codes "N <a@example.org> x") ≡ false }
    ensures nobody { admits (Some (codes "<[^>]+[@.]example\\.org>$")) (codes "N <@example.org>") ≡ false }
    ensures hyphen { admits (Some (codes "<[^>]+[@.]my\\-site\\.org>$")) (codes "N <a@my-site.org>") ≡ true }
{}

/// Worked: branches and groups, and a dot that is not escaped, which takes any byte.
pub fn scopes_may_have_branches()
    ensures one { admits (Some (codes "(lists|dev)\\.example")) (codes "D <d@dev.Example.org>") ≡ true }
    ensures no_dot { admits (Some (codes "(lists|dev)\\.example")) (codes "D <d@devXexample.org>") ≡ false }
    ensures bare_dot { admits (Some (codes "<[^>]+[@.]example.org>$")) (codes "N <a@exampleXorg>") ≡ true }
    ensures empty_branch { admits (Some (codes "|")) [] ≡ true }
    ensures empty_first { admits (Some (codes "^(|a)$")) (codes "a") ≡ true }
    ensures empty_last { admits (Some (codes "^(x|)$")) [] ≡ true }
    ensures empty_group { admits (Some (codes "()*")) (codes "a") ≡ true }
{}

/// Worked: the start and the end of the text, and repeated parts.
pub fn scopes_may_begin_and_end()
    ensures all { admits (Some (codes "^A+$")) (codes "aaa") ≡ true }
    ensures another { admits (Some (codes "^A+$")) (codes "aab") ≡ false }
    ensures at_least_one { admits (Some (codes "^A+$")) [] ≡ false }
    ensures start_inside { admits (Some (codes "a^b")) (codes "ab") ≡ false }
    ensures start_repeated { admits (Some (codes "^(^a)*$")) (codes "aa") ≡ false }
    ensures both { admits (Some (codes "$^")) [] ≡ true }
    ensures nothing_repeated { admits (Some (codes "^(a*)*b$")) (codes "aab") ≡ true }
{}

/// Worked: ranges.
pub fn scopes_may_have_ranges()
    ensures hyphen_last { admits (Some (codes "[]a-]")) (codes "-") ≡ true }
    ensures no_member { admits (Some (codes "[]a-]")) (codes "b") ≡ false }
    ensures bracket_first { admits (Some (codes "[]a-]")) (codes "]") ≡ true }
    ensures negated_case { admits (Some (codes "[^a-c]")) (codes "B") ≡ false }
    ensures negated { admits (Some (codes "[^a-c]")) (codes "d") ≡ true }
    ensures negated_bracket { admits (Some (codes "[^]]")) (codes "]") ≡ false }
    ensures closes { admits (Some (codes "^[A-]b]$")) (codes "-b]") ≡ true }
    ensures no_range { admits (Some (codes "^[A-]b]$")) (codes "B") ≡ false }
    ensures hyphen_first { admits (Some (codes "[--0]")) (codes ".") ≡ true }
    ensures hyphen_between { admits (Some (codes "[a-b-c]")) (codes "-") ≡ true }
    ensures caret_member { admits (Some (codes "[^^]")) (codes "^") ≡ false }
{}

/// Worked: scopes that are no expressions, which admit nothing.
pub fn other_scopes_are_none()
    ensures repeated_twice { tree_of (codes "x**") ≡ None }
    ensures falling { tree_of (codes "[z-a]") ≡ None }
    ensures unclosed { tree_of (codes "(x") ≡ None }
    ensures unopened { tree_of (codes "x)") ≡ None }
    ensures nothing_to_repeat { tree_of (codes "a|*") ≡ None }
    ensures nothing_escaped { tree_of (codes "a\\") ≡ None }
    ensures no_member { tree_of (codes "[]") ≡ None }
    ensures open_range { tree_of (codes "[a-") ≡ None }
{}
