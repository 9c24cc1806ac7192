// Places in the picture: the signs stand in rows, from left to right.
ghost use Rattle.std.specs.Prelude.{◌+◌, ◌≤◌, ◌≡◌};
ghost use Rattle.svg_text.specs.Picture.{width, column, row};

use bus::Sign;

// The place of a sign, or where the one before it ends.
#[derive(Clone, Copy)]
pub struct Place {
    pub x: u32,
    pub y: u32,
}

impl Place {
    // Where a sign stands, behind one that ends here: in its row, or at the start of the next. This stays
    // a method, not a From: the place is one of many that could be made of a place and a width.
    pub fn of_next(self, width: u32) -> Place
        requires in_row { self.x ≤ 800 }
        requires narrow { width ≤ 108 }
        requires low { self.y ≤ 200000 }
        ensures column { result.x ≡ column self.x width }
        ensures row { result.y ≡ row self.x self.y width }
        ensures in_row { result.x + width ≤ 800 }
        ensures low { result.y ≤ self.y + 120 }
    {
        if self.x + width > 800 {
            Place {
                x: 60,
                y: self.y + 120,
            }
        } else {
            self
        }
    }

    // Where a sign of that width ends, which stands here.
    pub fn behind(self, width: u32) -> Place
        requires { self.x + width ≤ 800 }
        ensures x { result.x ≡ self.x + width }
        ensures y { result.y ≡ self.y }
    {
        Place {
            x: self.x + width,
            ..self
        }
    }
}

// How wide a sign is drawn.
pub fn width_of(sign: Sign) -> u32
    ensures same { result ≡ width sign }
    ensures narrow { result ≤ 108 }
{
    match sign {
        Sign::Start | Sign::Restart | Sign::Stop => 24,
        Sign::Address(_) | Sign::Written(_) | Sign::ReadSlot => 108,
    }
}
