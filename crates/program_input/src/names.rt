// Parts of standard input, each ended by a byte: the answers' names, as a script hands them to a program, each ended by a NUL, with `+` before a plain
// file's name, `-` before any other, and `=` before a path and the name of the plain file that it opens; the rows of a register.
ghost use Rattle.std.specs.Prelude.{◌≤◌, min, ◌≡◌, length, is_some, IfSome};
ghost use Rattle.io.specs.Counts.{IsPrefixLen};
ghost use Rattle.program_input.specs.declared.names.Left.TheVariants.{More};
ghost use Rattle.program_input.specs.Listed.{is_plain, path_in, name_in};

use std::io::Read;
use write_items::write_byte;

// What is still to come of an input: more; nothing; or nothing because a read failed.
#[derive(Clone, Copy, PartialEq, Eq)]
pub enum Left {
    More,
    Nothing,
    Unread,
}

// Of the bytes that the last read gave, so many are taken; and what is still to come.
#[derive(Clone, Copy)]
pub struct Parts {
    pub taken: usize,
    pub size: usize,
    pub left: Left,
}

// A part has so many bytes, and was ended by its byte, or else by the input's end.
#[derive(Clone, Copy)]
pub struct Part {
    pub whole: bool,
    pub size: usize,
}

pub fn no_parts_yet() -> Parts
    ensures { (result.taken ≡ 0) × (result.size ≡ 0) × (result.left ≡ More) }
{
    Parts {
        taken: 0,
        size: 0,
        left: Left::More,
    }
}

// At most so many of a text's bytes.
pub fn at_most(size: usize, text: &[u8]) -> usize
    ensures counts { IsPrefixLen result text.now }
    ensures least { result ≡ min size (length text.now) }
{
    size.min(text.len())
}

impl Parts {
    // What the next read gives.
    fn read_more<R: Read>(&mut self, input: &mut R, bytes: &mut [u8]) {
        self.taken = 0;
        self.size = 0;
        match input.read(bytes) {
            Ok(0) => self.left = Left::Nothing,
            Ok(size) => self.size = size,
            Err(error) => {
                program_io::say_failed(b"standard input", error);
                self.left = Left::Unread;
            }
        }
    }

    fn next_byte<R: Read>(&mut self, input: &mut R, bytes: &mut [u8]) -> Option<u8> {
        if self.left == Left::More && self.size <= self.taken {
            self.read_more(input, bytes);
        }
        if self.left != Left::More {
            return None;
        }
        let at = self.taken;
        let byte = *bytes.get(at)?;
        self.taken = at + 1;
        Some(byte)
    }

    // The next part, without the byte that ends it, into the lent bytes; of a longer one the first bytes. The last part may lack its end, and then has a byte.
    // What was read and is not taken yet stands in `bytes`.
    pub fn next_part<R: Read>(
        &mut self,
        input: &mut R,
        bytes: &mut [u8],
        part: &mut [u8],
        end: u8,
    ) -> Option<Part>
        ensures { IfSome result (λ p. IsPrefixLen p.size part.new) }
    {
        let mut size: usize = 0;
        // A loop that is proved ends, so it counts its turns.
        for _ in 0..u64::MAX {
            match self.next_byte(input, bytes) {
                None if size == 0 => return None,
                None => {
                    return Some(Part {
                        whole: false,
                        size: at_most(size, part),
                    });
                }
                Some(byte) if byte == end => {
                    return Some(Part {
                        whole: true,
                        size: at_most(size, part),
                    });
                }
                Some(byte) => size = write_byte(part, size, byte),
            }
        }
        None
    }
}

// Whether something could not be read, and whether all was written.
#[derive(Clone, Copy)]
pub struct Went {
    pub unread: bool,
    pub written: bool,
}

// Who takes the names. No closure: a function that takes one must ask that it may be called, and no public function has a precondition.
pub trait TakeName {
    fn take_name(&mut self, name: &[u8]) -> Went;
}

// Each part of the list of names in turn, up to the first of which not all is written.
pub fn take_names<R: Read, T: TakeName>(input: &mut R, taker: &mut T) -> Went {
    let mut name = [0u8; 4097];
    let mut bytes = [0u8; 65536];
    let mut names = no_parts_yet();
    let mut went = Went {
        unread: false,
        written: true,
    };
    // A loop that is proved ends, so it counts its turns.
    for _ in 0..u64::MAX {
        let Some(next) = names.next_part(input, &mut bytes, &mut name, 0) else {
            break;
        };
        let size = next.size;
        let taken = taker.take_name(&name[..size]);
        went.unread = went.unread || taken.unread;
        went.written = taken.written;
        if !went.written {
            break;
        }
    }
    went.unread = went.unread || names.left == Left::Unread;
    went
}

// A part of the list of names: the path that opens the file, of a plain one, and the name.
#[derive(Clone, Copy)]
pub struct Listed<'a> {
    pub path: Option<&'a [u8]>,
    pub name: &'a [u8],
}

// `+NAME` and `-NAME`, and of a plain file whose name is no text, by which std opens none, `=`, a byte that says how long a path is, the path and the name.
pub fn read_listed(part: &[u8]) -> Listed<'_>
    ensures plain { is_some result.path ≡ is_plain part.now }
    ensures path { IfSome result.path (λ p. p.now ≡ path_in part.now) }
    ensures name { result.name.now ≡ name_in part.now }
{
    if part.is_empty() {
        return Listed {
            path: None,
            name: part,
        };
    }
    if part[0] == b'=' && 1 < part.len() {
        let from = part[1] as usize + 2;
        if from <= part.len() {
            return Listed {
                path: Some(&part[2..from]),
                name: &part[from..],
            };
        }
    }
    let name = &part[1..];
    if part[0] == b'+' {
        return Listed {
            path: Some(name),
            name,
        };
    }
    Listed { path: None, name }
}
