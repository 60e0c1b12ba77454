// The option of the document call.
ghost use Rattle.iterator.specs.Render.{Decodes};

use parse::Refusal;

// Whether a destination block is also a link.
#[derive(Clone, Copy, Debug, PartialEq, Eq)]
pub enum Render {
    Off,
    On,
}

impl TryFrom<u32> for Render {
    type Error = Refusal;

    ghost try_from_gives = { Decodes };

    fn try_from(render: u32) -> Result<Self, Refusal> {
        match render {
            0 => Ok(Render::Off),
            1 => Ok(Render::On),
            _ => Err(Refusal::Render),
        }
    }
}
