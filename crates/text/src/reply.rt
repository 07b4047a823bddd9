// Answers that both programs give to a line. Assumes nothing.
ghost use Rattle.std.specs.Prelude.{◌≡◌};
ghost use Rattle.text.specs.Text.{saying};
ghost use Rattle.text.specs.Reply.{unread_line, refused_line};

use super::text::Text;

// To a line that cannot be read.
#[tactic(auto, unfolding(crate::specs::Text::saying, crate::specs::Text::put_all, crate::specs::Reply::unread_line))]
pub fn unread() -> Text
    ensures { result ≡ saying unread_line }
{
    Text::new().put(b'?')
}

// Where something is refused: the refusal's number and place. Numbers, since a `Fault` would ask more of callers.
#[tactic(auto, unfolding(crate::specs::Text::saying), using(crate::proofs::Laws::refused_is))]
pub fn refused(number: u8, place: usize) -> Text
    ensures { result ≡ saying (refused_line number place) }
{
    Text::new()
        .put_all(b"refused ")
        .put_number(number as usize)
        .put(b' ')
        .put_number(place)
}
