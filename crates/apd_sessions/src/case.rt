//! A session that is tried: what it meets, and what is wanted of it.

use apd_base::Text;
use std::alloc::{AllocError, Global};

/// A file in memory.
#[derive(Drop)]
pub struct NamedFile {
    pub name: String,
    pub content: Text,
}

impl NamedFile {
    fn copy(&self, alloc: Global) -> Result<NamedFile, AllocError> {
        let name = self.name.clone()?;
        let content = Text::copy_of(alloc, self.content.bytes())?;
        Ok(NamedFile { name, content })
    }
}

/// The numbers of the calls that fail, counted from 1; 0 is none.
#[derive(Clone, Copy)]
pub struct Failing {
    pub load: u32,
    pub read: u32,
    pub write: u32,
}

/// How the input is read and the output is written.
#[derive(Clone, Copy)]
pub enum Passing {
    /// As many bytes at a time as are asked for.
    Whole,
    /// The input a line at a time; what is wanted then shows each line where it was read, behind `< `.
    Lines,
    /// At most so many bytes at a time, both.
    Pieces(u32),
}

/// A session and what is wanted of it.
#[derive(Drop)]
pub struct Case {
    pub name: String,
    /// The words behind the program's own name.
    pub words: Vec<String>,
    pub files: Vec<NamedFile>,
    pub input: Text,
    pub failing: Failing,
    /// How many bytes the output takes.
    pub room: u32,
    pub passing: Passing,
    pub status: u8,
    pub output: Text,
    /// The text of the log's last entry, where that is looked at.
    pub last: Option<Text>,
}

/// Room for every output but those that are cut off.
const ROOM: u32 = 1_000_000;

impl Case {
    /// A session without words, files and input, of which nothing is wanted.
    pub fn new(alloc: Global, name: &str) -> Result<Case, AllocError> {
        let name = String::from_str(alloc, name)?;
        Ok(Case {
            name,
            words: Vec::new(alloc),
            files: Vec::new(alloc),
            input: Text::new(alloc),
            failing: Failing {
                load: 0,
                read: 0,
                write: 0,
            },
            room: ROOM,
            passing: Passing::Whole,
            status: 0,
            output: Text::new(alloc),
            last: None,
        })
    }

    /// Puts copies of the words of this session behind those of another.
    fn put_words(&self, case: &mut Case) -> Result<(), AllocError> {
        for word in &self.words {
            let word = word.clone()?;
            case.words.push(word)?;
        }
        Ok(())
    }

    /// Puts copies of the files of this session behind those of another.
    fn put_files(&self, alloc: Global, case: &mut Case) -> Result<(), AllocError> {
        for file in &self.files {
            let file = file.copy(alloc)?;
            case.files.push(file)?;
        }
        Ok(())
    }

    /// Puts copies of the words, the files and the input of this session behind those of another.
    fn put_into(&self, alloc: Global, case: &mut Case) -> Result<(), AllocError> {
        self.put_words(case)?;
        self.put_files(alloc, case)?;
        case.input.extend(self.input.bytes())
    }

    /// A session with the words, the files and the input of this one, of which nothing is wanted.
    pub fn like(&self, alloc: Global, name: &str) -> Result<Case, AllocError> {
        let mut case = Case::new(alloc, name)?;
        match self.put_into(alloc, &mut case) {
            Ok(()) => Ok(case),
            Err(fault) => {
                // Dropped by a call: else each part is a step to check.
                drop(case);
                Err(fault)
            }
        }
    }
}
