// The output of a writing.
ghost use Rattle.std.specs.Prelude.{◌≡◌, false, ◌++◌, length, drop, replicate, if◌then◌else◌, nat_le};
ghost use Rattle.writer.specs.Writing.{room_verdict};

use crate::faults::WritingFault;

// Guards the bytes of an output: unless the writing was finished, they are zeros throughout when the guard goes.
// Stays a flag: only the drop asks it, and the bytes are there either way.
pub(crate) struct Output<'a> {
    pub bytes: &'a mut [u8],
    pub finished: bool,
}

impl<'a> Output<'a> {
    // The guard of these bytes. No writing is finished yet.
    pub(crate) fn over(bytes: &'a mut [u8]) -> Output<'a>
        ensures same_reference { result.bytes.ghost_name ≡ bytes.entry.ghost_name }
        ensures bytes { result.bytes.now ≡ bytes.old }
        ensures open { result.finished ≡ false }
    {
        Output {
            bytes,
            finished: false,
        }
    }
}

impl Drop for Output<'_> {
    fn drop(self)
        ensures { self.exit.0.now ≡ (if self.entry.finished then self.entry.bytes.now else replicate (length self.entry.bytes.now) 0) }
    {
        if !self.finished {
            self.bytes.fill(0);
        }
        let Output {
            bytes: _,
            finished: _,
        } = self;
    }
}

// Copies the text to the front of the output, if the output holds it.
pub(crate) fn place_text(out: &mut [u8], text: &[u8]) -> Result<usize, WritingFault>
    ensures value { result ≡ room_verdict (length out.old) (length text.now) }
    ensures after { out.new ≡ (if nat_le (length text.now) (length out.old) then text.now ++ drop (length text.now) out.old else out.old) }
{
    if out.len() < text.len() {
        return Err(WritingFault::Output);
    }
    out[0..text.len()].copy_from_slice(text);
    Ok(text.len())
}
