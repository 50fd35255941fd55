// An accepted file written again.
ghost use Rattle.std.specs.Prelude.{◌≡◌};
ghost use Rattle.casefile.specs.Bytes.{fitted, filled};
ghost use Rattle.casefile.specs.Files.{file_meaning};
ghost use Rattle.casefile.specs.Laws.{RoundTrip, Readable};

use crate::file::FileCase;
use crate::writer::write;
use cases::refusal::Refusal;

impl FileCase<'_> {
    // Writes the case into the buffer: the bytes are those of the file that was opened, and read back as what it means.
    // And so it is of every case and every file.
    #[tactic(auto, using(crate::proofs::Round::same_bytes, crate::proofs::Round::round_trip))]
    pub fn rewrite(&self, out: &mut [u8]) -> Result<usize, Refusal>
        ensures answers { result ≡ fitted self.now.bytes.now out.old }
        ensures leaves { out.new ≡ filled self.now.bytes.now out.old }
        ensures reads { Readable (file_meaning self.now.bytes.now) result out.new }
        ensures always { RoundTrip }
    {
        write(self, out)
    }
}
