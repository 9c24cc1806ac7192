// Reads of standard input: what each brought, and how it leaves the input.
ghost use Rattle.std.specs.Prelude.{◌≡◌, length};
ghost use Rattle.text_stdin.specs.Reads.{got_by, Brought};

use std::io::Read;

// How the input stands: bytes may follow; it has ended, a read having answered 0; a read has
// failed; or as many reads as are counted have brought bytes, and the end was not reached.
#[derive(Clone, Copy, PartialEq, Eq)]
pub enum End {
    Open,
    Ended,
    Failed,
    OutOfTurns,
}

// So many bytes stand at the start of the chunk, and how the input stands behind them. The count stays beside
// the end: `next_line` goes on with both, and a Result would say a second time that no bytes came with an end.
#[derive(Clone, Copy, PartialEq, Eq)]
pub struct Got {
    pub count: usize,
    pub end: End,
}

// What a read's answer says, which is None where the read has failed. Never more bytes came than the chunk has.
// Into a chunk with no room nothing can be read, so a 0 there is no end of the input.
pub fn by_answer(answer: Option<usize>, chunk: &[u8]) -> Got
    ensures { result ≡ got_by answer (length chunk.now) }
{
    let failed = Got {
        count: 0,
        end: End::Failed,
    };
    match answer {
        None => failed,
        Some(_) if chunk.is_empty() => failed,
        Some(0) => Got {
            count: 0,
            end: End::Ended,
        },
        Some(n) => Got {
            count: n.min(chunk.len()),
            end: End::Open,
        },
    }
}

// One read.
pub fn read_some(rt: HostRuntime, chunk: &mut [u8]) -> Got
    ensures { Brought chunk.new result }
{
    let answer = rt.stdin().read(chunk).ok();
    by_answer(answer, chunk)
}
