// The file that the blocks go to. Where it cannot be opened, that is said on standard error; a read or a
// write that fails is an error.
ghost use Rattle.std.specs.Io.{ReadsAtMost};

use programs::{fail, read_full};
use std::io::Write;
use std::rt::Files;
use std::{fs, io};

const NAME: &str = "polynomial";

// Writes the bytes to the file.
pub fn save(rt: &(impl Files + Eprint + AllocGlobal), bytes: &[u8]) -> io::Result<()> {
    match fs::create(rt, NAME) {
        Ok(mut file) => file.write_all(bytes),
        Err(error) => fail(rt, NAME, error),
    }
}

// Reads the file, and answers how many bytes it has, or as many as there is room for. Where it cannot be
// opened it is read as empty. After an error no clause says what bytes hold.
pub fn load(rt: &(impl Files + Eprint + AllocGlobal), bytes: &mut [u8]) -> io::Result<usize>
    ensures { ReadsAtMost result bytes.new }
{
    match fs::open(rt, NAME) {
        Ok(mut file) => read_full(&mut file, bytes),
        Err(error) => {
            fail(rt, NAME, error)?;
            Ok(0)
        }
    }
}
