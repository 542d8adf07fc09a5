// Three numbers as a line of text: what the program `solid` prints of its outcome.
#![tactic(auto)]

ghost use Rattle.std.specs.Prelude.{◌≡◌};
ghost use Rattle.results.specs.Operation as Op;
ghost use Rattle.solid_line.specs.Line as Li;
ghost use Rattle.solid_line.specs.Answers as An;

use results::Made;
use solid_line::Text;

// "answer, vertices, triangles, separated by one blank"
pub fn line_of(made: Made) -> Text
    ensures { result ≡ An.text (Li.line (Op.called made Li.room)) }
{
    let mut line = Text::EMPTY;
    line.push_number(made.answer.number as usize);
    line.push_after(b' ', made.vertices);
    line.push_after(b' ', made.triangles);
    line.push(b'\n');
    line
}
