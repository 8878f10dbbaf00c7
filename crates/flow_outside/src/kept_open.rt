//! A file that stays open from one read to the next.

// As long as a name may be for its file to be found again.
const MOST_NAME: usize = 255;

/// An open file, and the name by which it was opened.
#[derive(Drop)]
pub struct KeptOpen<F> {
    name: [u8; MOST_NAME],
    length: usize,
    file: F,
}

impl<F> KeptOpen<F> {
    /// An open file. It is found again by its name, if that has at most 255 bytes.
    pub fn new(file: F, name: &str) -> Self {
        let bytes = name.as_bytes();
        let mut kept = [0; MOST_NAME];
        if bytes.len() <= MOST_NAME {
            kept[..bytes.len()].copy_from_slice(bytes);
        }
        KeptOpen {
            name: kept,
            length: bytes.len(),
            file,
        }
    }

    /// Whether it was opened by this name.
    pub fn has_name(&self, name: &str) -> bool {
        let bytes = name.as_bytes();
        bytes.len() == self.length && self.name.starts_with(bytes)
    }

    /// The file.
    pub fn file(&mut self) -> &mut F {
        &mut self.file
    }
}
