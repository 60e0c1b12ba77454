// Why a call refuses: the table of document 01, in its order.
ghost use Rattle.std.specs.Prelude.{◌≡◌};
ghost use Rattle.parse.specs.Refusal.{number_of, bytes_of};

#[derive(Clone, Copy, Debug, PartialEq, Eq)]
pub enum Refusal {
    // render is not 0 or 1.
    Render,
    // The document has over 16,384 bytes.
    DocumentLen,
    // Fewer than 4,096 work numbers or 49,152 work bytes.
    WorkLen,
    // The place of the first byte that starts no character of the domain.
    Character(usize),
    // A 257th collected link.
    Links,
    // A 257th definition.
    Names,
    // The size in bytes that the output, or one of the two strings' buffers, would need.
    OutputLen(usize),
    // The place is past the document or inside a character.
    Place,
    // No link from the place to the end.
    NoLink,
}

impl Refusal {
    // The number in the table.
    pub fn number(self) -> u32
        ensures { result ≡ number_of self }
    {
        match self {
            Refusal::Render => 1,
            Refusal::DocumentLen => 2,
            Refusal::WorkLen => 3,
            Refusal::Character(_) => 4,
            Refusal::Links => 5,
            Refusal::Names => 6,
            Refusal::OutputLen(_) => 7,
            Refusal::Place => 8,
            Refusal::NoLink => 9,
        }
    }

    // The place or size that comes with it, else 0.
    pub fn bytes(self) -> usize
        ensures { result ≡ bytes_of self }
    {
        match self {
            Refusal::Character(n) | Refusal::OutputLen(n) => n,
            _ => 0,
        }
    }
}
