// A part of a file handed back. The callers find out where the part lies; they must make sure that it is inside the file.
#![tactic(auto)]

ghost use Rattle.std.specs.Prelude.{◌≡◌};
ghost use Rattle.refusal_rules.specs.Answers.{says};
ghost use Rattle.span_rules.specs.Spans.{lent_bytes, that_part, Inside};

use refusal_rules::Refusal;
use span_rules::Span;

// The part of the file that an answer names, empty where the answer is a refusal. The caller must make sure that a span that is given is inside the file.
pub fn hand_back(file: &[u8], answer: Result<Span, Refusal>) -> &[u8]
    requires { Inside file.now (says answer) }
    ensures { lent_bytes result ≡ that_part file.entry (says answer) }
{
    match answer {
        Ok(span) => &file[span.start..span.start + span.length],
        Err(_) => &file[..0],
    }
}
