// The form of a master's transfer: a number of four bits in the input, and a value of these types behind it.
ghost use Rattle.std.specs.Prelude.{◌≡◌};
ghost use Rattle.replay_calls.specs.Form.{form_by, Formed};

// Which of the master's calls it is: bits 0 and 1.
#[derive(Clone, Copy)]
pub enum Kind {
    Read,
    Write,
    WriteRead,
    Transaction,
}

// How the call waits for its bytes: bit 2. It stays a type of its own beside the transfer's mode,
// which is the machine's: the definitions of the replay speak of the master alone.
#[derive(Clone, Copy)]
pub enum Mode {
    Blocking,
    Async,
}

// `coded`: with a packet error code, bit 3. It stays beside `i2c::forms::Way`, which has an address
// where this has a kind: a frame gives the form as one number, and the address apart from it.
#[derive(Clone, Copy)]
pub struct Form {
    pub kind: Kind,
    pub mode: Mode,
    pub coded: bool,
}

// A number that is no form.
#[derive(Clone, Copy)]
pub struct NoForm;

impl Form {
    // The form that the bits of a number say: any number of 8 or more is with a code.
    pub fn by_bits(bits: u32) -> Form
        ensures { result ≡ form_by bits }
    {
        let kind = match bits % 4 {
            0 => Kind::Read,
            1 => Kind::Write,
            2 => Kind::WriteRead,
            _ => Kind::Transaction,
        };
        let mode = if bits % 8 < 4 {
            Mode::Blocking
        } else {
            Mode::Async
        };
        let coded = 8 <= bits;
        Form { kind, mode, coded }
    }
}

impl TryFrom<u32> for Form {
    type Error = NoForm;

    ghost try_from_gives = { Formed };

    fn try_from(bits: u32) -> Result<Form, NoForm> {
        if 16 <= bits {
            return Err(NoForm);
        }
        Ok(Form::by_bits(bits))
    }
}
