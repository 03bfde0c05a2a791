//! Notes of the way back.

ghost use Rattle.std.specs.Prelude.{◌≡◌, ◌∷◌, [], drop, reverse, OnOk, OnErr, IfOk, MatchOption};
ghost use Rattle.apd_notes.specs.Notes.{forgotten, handed_to, note_of, AreHands, IsNewestBranch};

use apd_base::MOST_KEPT;
use apd_base::room::room_for_one;
use apd_unify::store::Mark;
use std::alloc::{AllocError, Global};
use std::marker::Model;
use std::mem::size_of;

/// Where a search may come back to: the store's mark, and how many links there were, and which was the innermost.
#[derive(Clone, Copy)]
pub struct Branch {
    pub mark: Mark,
    pub links: usize,
    pub innermost: usize,
}

/// What is noted.
#[derive(Clone, Copy)]
pub enum Note {
    /// The frames are saved here.
    Saved(Branch),
    /// An exit is handed to the link with this number, whose newest point was this one.
    Handed(usize, u32),
}

/// A note as it is kept. Of a branch it has the mark and the number of links: the newest of them is the innermost, or that
/// which the note below tells of, and then the number is above [`BELOW`]. Of an exit that is handed it has the point, and
/// the link's number above [`HANDED`].
#[derive(Clone, Copy)]
pub struct NoteRow {
    pub first: u32,
    pub second: u32,
}

const _: () = prove!(size_of::<NoteRow>() == 8);

/// Notes. Contracts see their list, the newest first.
#[derive(Drop)]
pub struct Notes {
    oldest_first: Vec<NoteRow>,
}

impl Model for Notes {
    ghost use Rattle.std.specs.Prelude.{List, reverse};
    ghost use Rattle.apd_notes.specs.declared.notes.Note.{Note};
    ghost use Rattle.apd_notes.specs.Notes.{notes_in};

    ghost Value = { List Note };

    ghost view = { λ s. notes_in (reverse s.oldest_first.items) };
}

/// From this number on a row is of a branch whose innermost link the note below tells.
const BELOW: u32 = 1_073_741_824;

/// From this number on it is of an exit that is handed.
const HANDED: u32 = 2_147_483_648;

/// The number of the link that an exit was handed to by the newest of these notes, which are given the oldest first, where it
/// is of such an exit; 0 where there is none.
#[inline(always)]
fn handed_to(rows: &[NoteRow]) -> usize
    ensures { result ≡ handed_to (reverse rows.now) }
{
    match rows.split_last() {
        None => 0,
        Some((row, _older)) => (row.second % HANDED) as usize,
    }
}

/// The note of a row that stands behind these.
#[inline(always)]
fn note_of(row: NoteRow, older: &[NoteRow]) -> Note
    ensures { result ≡ note_of row (reverse older.now) }
{
    let mark = Mark(row.first as usize);
    if row.second < BELOW {
        let links = row.second as usize;
        return Note::Saved(Branch {
            mark,
            links,
            innermost: links,
        });
    }
    if row.second < HANDED {
        return Note::Saved(Branch {
            mark,
            links: (row.second - BELOW) as usize,
            innermost: handed_to(older),
        });
    }
    Note::Handed((row.second - HANDED) as usize, row.first)
}

/// The row of a branch that stands behind these; want of memory where a number is too great, and where the innermost link
/// is neither the newest nor told by the note below: no search saves frames there, since it has just put a link behind the
/// others, or handed an exit to one, or has gone back to where it had.
#[inline(always)]
fn row_of_branch(branch: Branch, older: &[NoteRow]) -> Result<NoteRow, AllocError>
    ensures { IfOk result (λ r. note_of r (reverse older.now) ≡ Note.Saved branch) }
{
    if branch.mark.0 > MOST_KEPT || branch.links >= BELOW as usize {
        return Err(AllocError);
    }
    let first = branch.mark.0 as u32;
    let links = branch.links as u32;
    if branch.innermost == branch.links {
        return Ok(NoteRow {
            first,
            second: links,
        });
    }
    if branch.innermost != handed_to(older) {
        return Err(AllocError);
    }
    Ok(NoteRow {
        first,
        second: links + BELOW,
    })
}

/// The row of a note that stands behind these.
#[inline(always)]
fn row_of(note: Note, older: &[NoteRow]) -> Result<NoteRow, AllocError>
    ensures { IfOk result (λ r. note_of r (reverse older.now) ≡ note) }
{
    match note {
        Note::Saved(branch) => row_of_branch(branch, older),
        Note::Handed(link, point) => {
            if link >= HANDED as usize {
                return Err(AllocError);
            }
            Ok(NoteRow {
                first: point,
                second: link as u32 + HANDED,
            })
        }
    }
}

/// The place of the newest branch of these rows, the oldest first.
fn newest_branch(rows: &[NoteRow]) -> Option<usize>
    ensures { MatchOption result (AreHands rows.now) (IsNewestBranch rows.now) }
{
    let mut place = rows.len();
    'rows: while place > 0 {
        place -= 1;
        let row = &rows[place];
        if row.second < HANDED {
            return Some(place);
        }
    }
    None
}

impl Notes {
    pub fn new(alloc: Global) -> Notes
        ensures { result ≡ [] }
    {
        Notes {
            oldest_first: Vec::new(alloc),
        }
    }

    /// Notes this; want of memory also where a row can't tell the branch or the link.
    #[inline(always)]
    pub fn push(&mut self, note: Note) -> Result<(), AllocError>
        ensures ok { OnOk result (self.new ≡ note ∷ self.old) }
        ensures err { OnErr result (self.new ≡ self.old) }
    {
        let rows = self.oldest_first.as_slice();
        let row = row_of(note, rows)?;
        room_for_one(&mut self.oldest_first)?;
        self.oldest_first.push_reserved(row);
        Ok(())
    }

    /// The newest.
    #[inline(always)]
    pub fn newest(&self) -> Option<Note>
        ensures { MatchOption result
            (self.now ≡ [])
            (λ n. self.now ≡ n ∷ drop 1 self.now) }
    {
        let rows = self.oldest_first.as_slice();
        match rows.split_last() {
            None => None,
            Some((row, older)) => Some(note_of(*row, older)),
        }
    }

    /// Gives up the newest.
    #[inline(always)]
    pub fn pop(&mut self)
        ensures { self.new ≡ drop 1 self.old }
    {
        let _ = self.oldest_first.pop();
    }

    /// Gives up the newest branch. The exits that were handed behind it stay.
    #[inline(always)]
    pub fn forget(&mut self)
        ensures { self.new ≡ forgotten self.old }
    {
        match self.newest() {
            None => {}
            Some(Note::Saved(_branch)) => self.pop(),
            Some(Note::Handed(_number, _point)) => self.forget_below(),
        }
    }

    /// Gives up the newest branch, where an exit was handed behind it: no search does so.
    #[inline(never)]
    fn forget_below(&mut self)
        ensures { self.new ≡ forgotten self.old }
    {
        let rows = self.oldest_first.as_slice();
        match newest_branch(rows) {
            None => {}
            Some(place) => {
                let _ = self.oldest_first.remove(place);
            }
        }
    }
}
