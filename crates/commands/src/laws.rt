//! Laws of the texts, for all values. A call does nothing at run time.
ghost use Rattle.std.specs.Prelude.{◌≡◌, IsTrue};
ghost use Rattle.commands.specs.Examples.{first_step_done, first_step_text};
ghost use Rattle.commands.specs.Texts.{HaveOneLine, is_accepted, reply_line};
ghost use Rattle.commands.specs.declared.replies.Reply.{Reply};

/// Two different accepted replies have different lines.
pub fn replies_have_one_line()
    ensures once { HaveOneLine }
{}

/// The law of lines, applied to the reply to a first step: no other accepted reply has its line.
///
/// The proof applies the law to that reply. A law with one more premise, which the reply does not meet, is refused here.
pub fn line_of_a_first_step()
    ensures alone { (other : Reply) → IsTrue (is_accepted other)
        → reply_line other ≡ first_step_text
        → other ≡ first_step_done }
{
    replies_have_one_line();
}
