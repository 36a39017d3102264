//! Laws of replies: where one ends, whatever the command.
#![tactic(auto)]

ghost use Rattle.std.specs.Prelude.{◌≡◌, [], All, List, count_by, false, not, true};
ghost use Rattle.wot_types.specs.Commands.{Command};
ghost use Rattle.wot_types.specs.Lines.{whole_lines};
ghost use Rattle.wot_types.specs.Outcome.{outcome};
ghost use Rattle.wot_types.specs.Session.{Progress, replies, states};
ghost use Rattle.wot_types.specs.Store.{Store};
ghost use Rattle.wot_reply_laws.specs.Replies.{AreWellFormed, HasHistory, IsReply, WereWellFormed, ends_reply, is_silent};

/// Whatever a store holds and whatever a command is, the reply's last line is the first one that begins with `ok` or
/// `err`. So a program that talks over a pipe reads up to that line, and has read the reply.
pub fn replies_end_at_their_last_line()
    ensures ends { (s : Store) (command : Command) → AreWellFormed s.state.keys → WereWellFormed s → is_silent command ≡ false
        → IsReply (outcome s command).refused (outcome s command).text }
    ensures silent { (s : Store) (command : Command) → is_silent command ≡ true → (outcome s command).text ≡ [] }
{}

/// In the whole output of a session, as many lines begin with `ok` or `err` as there are commands that get a reply.
pub fn last_lines_count_the_replies()
    ensures { (p : Progress) (commands : List Command) → HasHistory p.store → All (λ s. AreWellFormed s.keys) (states p commands)
        → count_by ends_reply (whole_lines (replies p commands)) ≡ count_by (λ command. not (is_silent command)) commands }
{}
