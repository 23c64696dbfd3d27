//! A law of all lines. A call does nothing at run time.
ghost use Rattle.std.specs.Prelude.{◌≡◌, ℕ, List, Ok};
ghost use Rattle.recovery.specs.LineExamples.{back_to_2, back_to_2_text};
ghost use Rattle.recovery.specs.Lines.{HaveOneLine, text_meaning};

/// A text makes a request exactly if it is the line of that request.
pub fn commands_have_one_line()
    ensures lines { HaveOneLine }
{}

/// The law of lines, applied to a line that sends a journey back: the line makes that request, and no other text does.
///
/// The proof applies the law to that line. A law with one more premise, which the line does not meet, is refused here.
pub fn line_of_an_abort()
    ensures made { text_meaning back_to_2_text ≡ Ok back_to_2 }
    ensures alone { (text : List ℕ) → text_meaning text ≡ Ok back_to_2 → text ≡ back_to_2_text }
{
    commands_have_one_line();
}
