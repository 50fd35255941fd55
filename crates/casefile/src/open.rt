// A file opened: judged field by field, with the index made on the way.
ghost use Rattle.std.specs.Prelude.{◌≡◌};
ghost use Rattle.casefile.specs.Laws.{Opened, empty_file};
ghost use Rattle.casefile.specs.Inner.Indexes.{Judged};

use crate::fault::FileRefusal;
use crate::file::FileCase;
use crate::index::Index;
use crate::reader::Reader;

// No options and no rules.
const EMPTY: &[u8] = &[1, 0, 2, 0, 0, 4, 0, 0];

// The whole file: its index, or what is wrong with it.
fn judge(bytes: &[u8]) -> Result<Index, FileRefusal>
    ensures { Judged bytes.now result }
{
    let mut reader = Reader::new(bytes);
    let mut index = Index::new();
    // a `loop`, since a field's place is asked before the field is read
    loop {
        let place = reader.place();
        let Some(field) = reader.next()? else {
            return Ok(index);
        };
        index.note(&field, place).map_err(|fault| fault.at(place))?;
    }
}

impl FileCase<'static> {
    // The case of the empty file, which a caller may take in place of a file that is refused.
    pub fn empty() -> FileCase<'static>
        ensures { result.bytes.now ≡ empty_file }
    {
        FileCase {
            bytes: EMPTY,
            index: Index::new(),
        }
    }
}

impl<'a> FileCase<'a> {
    // An accepted file as a case over the caller's bytes, or what is wrong with the file.
    pub fn open(bytes: &'a [u8]) -> Result<FileCase<'a>, FileRefusal>
        ensures { Opened bytes.now result }
    {
        let index = judge(bytes)?;
        Ok(FileCase { bytes, index })
    }
}
