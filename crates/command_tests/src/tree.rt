//! Directories and files in memory, with what of them was synced.

use crate::checks::UNSAID;
use std::alloc::{AllocError, Global};
use std::mem::replace;
use store::StoreFault;

/// How much of what was not synced is there after a crash.
#[derive(Clone, Copy, Debug)]
pub enum Kept {
    Nothing,
    FirstHalf,
    All,
}

impl Kept {
    // How many of so many are kept.
    fn of(self, count: usize) -> usize {
        match self {
            Kept::Nothing => 0,
            Kept::FirstHalf => count / 2,
            Kept::All => count,
        }
    }
}

#[derive(Drop)]
struct File {
    bytes: Vec<u8>,
    // How many of the first bytes were synced.
    synced: usize,
}

// What a path leads to.
#[derive(Drop)]
enum Node {
    Directory,
    File(File),
}

// A name in the directory that is the node of this number, and the number of the node that has it.
#[derive(Drop)]
struct Link {
    parent: usize,
    name: String,
    node: usize,
}

// A change of the names in a directory, which is done whole or not at all.
#[derive(Drop)]
struct Change {
    parent: usize,
    // The name that is in the directory no more.
    gone: Option<String>,
    // The name that is in it instead, in the place of what had it before.
    added: Option<Link>,
}

// Takes the name away where it is in the directory.
fn take_away(links: &mut Vec<Link>, parent: usize, name: &str) {
    links.retain(|link| link.parent != parent || link.name.as_str() != name);
}

// Carries out a change on the names of all directories.
fn apply(alloc: Global, links: &mut Vec<Link>, change: &Change) -> Result<(), AllocError> {
    if let Some(gone) = &change.gone {
        take_away(links, change.parent, gone);
    }
    if let Some(added) = &change.added {
        let name = String::from_str(alloc, &added.name)?;
        take_away(links, added.parent, &added.name);
        links.push(Link {
            parent: added.parent,
            name,
            node: added.node,
        })?;
    }
    Ok(())
}

/// Directories and files as a program sees them, and what of them was synced. The current directory is always there.
#[derive(Drop)]
pub struct Tree {
    alloc: Global,
    // The first one is the current directory. None is taken away.
    nodes: Vec<Node>,
    seen: Vec<Link>,
    // The names that were synced, and the changes after them that were not.
    synced: Vec<Link>,
    changes: Vec<Change>,
}

impl Tree {
    pub fn new(alloc: Global) -> Result<Tree, AllocError> {
        let mut nodes = Vec::new(alloc);
        nodes.push(Node::Directory)?;
        Ok(Tree {
            alloc,
            nodes,
            seen: Vec::new(alloc),
            synced: Vec::new(alloc),
            changes: Vec::new(alloc),
        })
    }

    fn child(&self, parent: usize, name: &str) -> Option<usize> {
        let link = self
            .seen
            .iter()
            .find(|link| link.parent == parent && link.name.as_str() == name)?;
        Some(link.node)
    }

    // The node that a path leads to.
    fn node(&self, path: &str) -> Option<usize> {
        let mut node = 0;
        for name in path.split('/') {
            node = self.child(node, name)?;
        }
        Some(node)
    }

    // The directory that a path is in, and the name there.
    fn place<'a>(&self, path: &'a str) -> Result<(usize, &'a str), StoreFault> {
        let Some((parent, name)) = path.rsplit_once('/') else {
            return Ok((0, path));
        };
        Ok((self.directory(parent)?, name))
    }

    fn directory(&self, path: &str) -> Result<usize, StoreFault> {
        let node = self.node(path).ok_or(UNSAID)?;
        match self.nodes.get(node) {
            Some(Node::Directory) => Ok(node),
            _ => Err(UNSAID),
        }
    }

    fn file(&mut self, node: Option<usize>) -> Result<&mut File, StoreFault> {
        match self.nodes.get_mut(node.ok_or(UNSAID)?) {
            Some(Node::File(file)) => Ok(file),
            _ => Err(UNSAID),
        }
    }

    /// The names in a directory.
    pub fn names(&self, path: &str) -> Result<Vec<String>, StoreFault> {
        let directory = self.directory(path)?;
        let mut names = Vec::new(self.alloc);
        for link in &self.seen {
            if link.parent == directory {
                names.push(String::from_str(self.alloc, &link.name)?)?;
            }
        }
        Ok(names)
    }

    /// The bytes of a file.
    pub fn read(&mut self, path: &str) -> Result<Vec<u8>, StoreFault> {
        let node = self.node(path);
        Ok(self.file(node)?.bytes.clone()?)
    }

    // Changes the names in a directory.
    fn change(&mut self, change: Change) -> Result<(), StoreFault> {
        apply(self.alloc, &mut self.seen, &change)?;
        self.changes.push(change)?;
        Ok(())
    }

    // Makes a node at a path that leads to nothing yet, in a directory that is there, and gives its number.
    fn add(&mut self, path: &str, made: Node) -> Result<usize, StoreFault> {
        let (parent, name) = self.place(path)?;
        if self.child(parent, name).is_some() {
            return Err(UNSAID);
        }
        let name = String::from_str(self.alloc, name)?;
        let node = self.nodes.len();
        self.nodes.push(made)?;
        self.change(Change {
            parent,
            gone: None,
            added: Some(Link { parent, name, node }),
        })?;
        Ok(node)
    }

    /// Makes a directory. It is refused where the path leads to something already.
    pub fn create_dir(&mut self, path: &str) -> Result<(), StoreFault> {
        self.add(path, Node::Directory)?;
        Ok(())
    }

    /// Makes an empty file, and gives its number. It is refused where the path leads to something already.
    pub fn create_file(&mut self, path: &str) -> Result<usize, StoreFault> {
        let bytes = Vec::new(self.alloc);
        self.add(path, Node::File(File { bytes, synced: 0 }))
    }

    /// Writes bytes after those of the file of this number.
    pub fn append(&mut self, file: usize, bytes: &[u8]) -> Result<(), StoreFault> {
        self.file(Some(file))?.bytes.extend_from_slice(bytes)?;
        Ok(())
    }

    /// Syncs the bytes of the file of this number.
    pub fn sync_file(&mut self, file: usize) -> Result<(), StoreFault> {
        let file = self.file(Some(file))?;
        file.synced = file.bytes.len();
        Ok(())
    }

    /// Syncs the names in a directory.
    pub fn sync_dir(&mut self, path: &str) -> Result<(), StoreFault> {
        let directory = self.directory(path)?;
        let changes = replace(&mut self.changes, Vec::new(self.alloc));
        for change in changes {
            if change.parent == directory {
                apply(self.alloc, &mut self.synced, &change)?;
            } else {
                self.changes.push(change)?;
            }
        }
        Ok(())
    }

    /// Moves a file or a directory within the directory that it is in. A file takes the place of a file that is there.
    pub fn rename(&mut self, from: &str, to: &str) -> Result<(), StoreFault> {
        let (parent, name) = self.place(from)?;
        let (directory, to_name) = self.place(to)?;
        let node = self.child(parent, name).ok_or(UNSAID)?;
        let replaced = self.child(directory, to_name);
        if parent != directory {
            return Err(UNSAID);
        }
        if replaced.is_some() {
            self.file(replaced)?;
            self.file(Some(node))?;
        }
        let gone = Some(String::from_str(self.alloc, name)?);
        let name = String::from_str(self.alloc, to_name)?;
        let added = Some(Link { parent, name, node });
        self.change(Change {
            parent,
            gone,
            added,
        })
    }

    pub fn remove_file(&mut self, path: &str) -> Result<(), StoreFault> {
        let (parent, name) = self.place(path)?;
        let node = self.child(parent, name);
        self.file(node)?;
        let gone = Some(String::from_str(self.alloc, name)?);
        self.change(Change {
            parent,
            gone,
            added: None,
        })
    }

    // Keeps so much of the bytes of each file that were not synced.
    fn keep_bytes(&mut self, kept: Kept) {
        for node in self.nodes.iter_mut() {
            if let Node::File(file) = node {
                let unsynced = file.bytes.len().saturating_sub(file.synced);
                file.synced = file.synced.saturating_add(kept.of(unsynced));
                file.bytes.truncate(file.synced);
            }
        }
    }

    // Keeps so many of the changes of names that were not synced, the first of them.
    fn keep_names(&mut self, kept: Kept) -> Result<(), AllocError> {
        let changes = replace(&mut self.changes, Vec::new(self.alloc));
        for change in changes.iter().take(kept.of(changes.len())) {
            apply(self.alloc, &mut self.synced, change)?;
        }
        self.seen.clear();
        for link in &self.synced {
            let name = String::from_str(self.alloc, &link.name)?;
            self.seen.push(Link {
                parent: link.parent,
                name,
                node: link.node,
            })?;
        }
        Ok(())
    }

    /// Drops what was not synced but for so much of it: of each file's bytes, and of the changes of names. What is left is synced.
    pub fn crash(&mut self, names: Kept, bytes: Kept) -> Result<(), AllocError> {
        self.keep_bytes(bytes);
        self.keep_names(names)
    }
}
