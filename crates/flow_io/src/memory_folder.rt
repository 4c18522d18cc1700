ghost use Rattle.std.specs.Prelude.{◌≡◌, ◌↔◌, ◌<◌, ◌≤◌, [], None, Some, length, IfNone, IfOk, IfSome, IsErr, OnErr, OnOk};
ghost use Rattle.std.specs.FinMap.{empty, get, insert};
ghost use Rattle.std.specs.Option.{option_copied};
ghost use Rattle.flow_io.specs.Entries.{contents, first_content, IsFirstAt};
ghost use Rattle.flow_io.specs.Faults.{HasRisen, one_more};
ghost use Rattle.flow_io.specs.Memory.{FailsNext};
ghost use Rattle.flow_io.specs.Parts.{FitsBuffer, IsPartOf};

use crate::folder::{Failed, Folder, Part};
use std::alloc::{AllocError, Global};
use std::marker::Model;

#[derive(Drop)]
struct File {
    name: String,
    content: Vec<u8>,
}

/// A folder in memory, which fails at chosen calls. Its calls are numbered from 0, up to 2^64 - 1, where the number
/// stays.
#[derive(Drop)]
pub struct MemoryFolder {
    files: Vec<File>,
    failing: Vec<u64>,
    calls: u64,
    faults: u64,
}

impl Model for MemoryFolder {
    ghost use Rattle.flow_io.specs.Memory.{FolderState, folder_code};

    ghost Value = { FolderState };

    ghost coded = { folder_code };

    ghost use Rattle.flow_io.specs.Entries.{contents};

    ghost view = { λ f. record {
      files = contents f.files.items;
      failing = f.failing.items;
      calls = f.calls;
      faults = f.faults;
    } };
}

impl MemoryFolder {
    /// An empty folder, of which the calls with these numbers fail.
    pub fn new(alloc: Global, failing: Vec<u64>) -> MemoryFolder
        ensures { result ≡ record { files = empty; failing = failing.items; calls = 0; faults = 0 } }
    {
        MemoryFolder {
            files: Vec::new(alloc),
            failing,
            calls: 0,
            faults: 0,
        }
    }

    /// Makes the bytes the content of the name; all other names stay. After an error nothing has changed.
    pub fn put(&mut self, name: &str, bytes: &[u8]) -> Result<(), AllocError>
        ensures ok { OnOk result (self.new ≡ record self.old { files = insert self.old.files name.now bytes.now }) }
        ensures err { OnErr result (self.new ≡ self.old) }
    {
        put_file(&mut self.files, name, bytes)
    }
}

impl Folder for MemoryFolder {
    ghost held = { λ folder. Some folder.files };

    ghost faults = { λ folder. folder.faults };

    fn read_part(&mut self, name: &str, from: u64, into: &mut [u8]) -> Result<Part, Failed>
        requires { 0 < length into.old }

        ensures fits { IfOk result (FitsBuffer (length into.old)) }
        ensures part { IfOk result (IsPartOf (get self.old.files name.now) from into.new) }
        ensures kept { self.new.files ≡ self.old.files }

        ensures failed { OnErr result (HasRisen self.old.faults self.new.faults) }
        ensures counted { self.old.faults ≤ self.new.faults }

        // It fails at the chosen calls and at no other; with none chosen the count never rises.
        ensures fails { IsErr result ↔ FailsNext self.old }
        ensures risen { OnErr result (self.new.faults ≡ one_more self.old.faults) }
        ensures steady { OnOk result (self.new.faults ≡ self.old.faults) }
        ensures never { self.old.failing ≡ [] → self.new.faults ≡ self.old.faults }
        ensures number { self.new.calls ≡ one_more self.old.calls }
        ensures chosen { self.new.failing ≡ self.old.failing }
    {
        let number = self.calls;
        self.calls = number.saturating_add(1);
        if self.failing.contains(&number) {
            self.faults = self.faults.saturating_add(1);
            return Err(Failed);
        }
        Ok(part_of(content_of(&self.files, name), from, into))
    }
}

// The content of the name, if there is such a file.
fn content_of<'a>(files: &'a [File], name: &str) -> Option<&'a [u8]>
    ensures { option_copied result ≡ get (contents files.now) name.now }
{
    let at = place_of(files, name)?;
    Some(files[at].content.as_slice())
}

// The bytes of the content from this offset on, as many as there is room for.
fn part_of(content: Option<&[u8]>, from: u64, into: &mut [u8]) -> Part
    requires { 0 < length into.old }
    ensures fits { FitsBuffer (length into.old) result }
    ensures part { IsPartOf (option_copied content.entry) from into.new result }
{
    let Some(bytes) = content else {
        return Part::Missing;
    };
    if from >= bytes.len() as u64 {
        return Part::End;
    }
    let rest = &bytes[from as usize..];
    let n = rest.len().min(into.len());
    into[..n].copy_from_slice(&rest[..n]);
    Part::Bytes(n)
}

// Makes the bytes the content of the name.
fn put_file(files: &mut Vec<File>, name: &str, bytes: &[u8]) -> Result<(), AllocError>
    ensures ok { OnOk result (contents files.new.items ≡ insert (contents files.old.items) name.now bytes.now) }
    ensures err { OnErr result (files.new.items ≡ files.old.items) }
{
    let alloc = *files.allocator();
    let content = bytes.to_vec(alloc)?;
    match place_of(files, name) {
        Some(at) => files[at].content = content,
        None => {
            let name = String::from_str(alloc, name)?;
            files.push(File { name, content })?;
        }
    }
    Ok(())
}

// Where the file of this name stands.
fn place_of(files: &[File], name: &str) -> Option<usize>
    ensures found { IfSome result (IsFirstAt files.now name.now) }
    ensures none { IfNone result (first_content files.now name.now ≡ None) }
{
    for (i, file) in files.iter().enumerate() {
        if name == file.name.as_str() {
            return Some(i);
        }
    }
    None
}
