ghost use Rattle.std.specs.Prelude.{◌≡◌, ◌≤◌, ◌+◌, [], ◌∷◌, ◌++◌, length, false, true, None, IfOk, IfErr, IfSome, IfNone, OnOk, OnErr};
ghost use Rattle.std.specs.Option.{option_map};
ghost use Rattle.chunk_node.specs.Chunks.{chunk_after};
ghost use Rattle.chunk_node.specs.Ends.{IsLastChunk};
ghost use Rattle.chunk_node.specs.Limits.{removal_of, after_removal, is_full, is_full_for, HasNodeCause};
ghost use Rattle.chunk_node.specs.Reading.{AreBytesKept, AreRuns, bytes_read};

use crate::chunks::Chunks;
use crate::history::{Done, EndDone, WriteDone};
use crate::runs::Run;
use fs_base::limits::{CHUNK_BYTES, NODE_BYTES, NODE_CALLS};
use fs_base::{InodeId, Memory};
use std::alloc::{AllocError, Global};
use std::collections::BTreeMap;
use std::marker::Model;

/// Why a node refused.
#[derive(Clone, Copy, Debug, PartialEq, Eq)]
pub enum NodeError {
    /// The inode was removed, for the entry of this version.
    Removed(u64),
    /// All writes together, with this one, pass 33,554,432 bytes, or there were 200,000 writes and cuts.
    Full,
    Memory,
}

impl From<Memory> for NodeError {
    ghost use Rattle.chunk_node.specs.declared.node.NodeError.TheVariants as errors;

    ghost from_gives = { λ _ e. e ≡ errors.Memory };

    fn from(_e: Memory) -> NodeError {
        NodeError::Memory
    }
}

impl From<AllocError> for NodeError {
    ghost use Rattle.chunk_node.specs.declared.node.NodeError.TheVariants as errors;

    ghost from_gives = { λ _ e. e ≡ errors.Memory };

    fn from(_e: AllocError) -> NodeError {
        NodeError::Memory
    }
}

/// A storage node: what it has done, and its chunks by that. Contracts see the history alone.
#[derive(Drop)]
pub struct NodeState {
    history: Vec<Done>,
    chunks: Chunks,
    removed: BTreeMap<u64, u64>,
    written: u64,
    counted: u64,
}

impl Model for NodeState {
    ghost use Rattle.std.specs.Prelude.{List};
    ghost use Rattle.chunk_node.specs.declared.history.Done.{Done};

    ghost Value = { List Done };

    ghost use Rattle.chunk_node.specs.Keeping.{IsNodeKept};

    ghost view = { λ s. s.history.items };

    ghost invariant = { λ s. IsNodeKept s.history.items s.chunks.map s.removed s.written s.counted };
}

impl NodeState {
    /// A node that has done nothing.
    pub fn new(alloc: Global) -> NodeState
        ensures { result ≡ [] }
    {
        NodeState {
            history: Vec::new(alloc),
            chunks: Chunks::new(alloc),
            removed: BTreeMap::new(alloc),
            written: 0,
            counted: 0,
        }
    }

    /// How much the node has done.
    pub fn front(&self) -> u64
        ensures { result ≡ length self.now }
    {
        self.history.len() as u64
    }

    /// The front, and the runs of so many bytes of a chunk from an offset on; absent bytes are 0.
    ///
    /// It is never refused as full.
    pub fn read(
        &self,
        inode: InodeId,
        index: u64,
        offset: u32,
        len: u32,
    ) -> Result<(u64, Vec<Run>), NodeError>
        requires { offset + len ≤ CHUNK_BYTES }
        ensures front { IfOk result (λ answer. answer.0 ≡ length self.now) }
        ensures runs { IfOk result
            (λ answer. AreRuns (bytes_read (chunk_after self.now inode index) offset len) offset
            answer.1.items) }
        ensures unremoved { OnOk result (removal_of self.now inode ≡ None) }
        ensures cause { IfErr result (λ why. HasNodeCause (removal_of self.now inode) false why) }
    {
        if let Some(why) = self.refusal(inode.get(), false) {
            return Err(why);
        }
        let alloc = *self.history.allocator();
        let runs = self.chunks.read(alloc, inode.get(), index, offset, len)?;
        Ok((self.history.len() as u64, runs))
    }

    /// The runs of all bytes of a chunk, if it is there, as the node keeps them: it takes memory by these.
    ///
    /// It doesn't look whether the inode was removed.
    pub fn kept(&self, inode: InodeId, index: u64) -> Option<&[Run]>
        ensures { AreBytesKept (chunk_after self.now inode index) (option_map (λ runs. runs.now) result) }
    {
        let bytes = self.chunks.get(inode.get(), index)?;
        Some(bytes.runs())
    }

    /// The front, and the last chunk of an inode with its length in bytes.
    pub fn query_end(&self, inode: InodeId) -> (u64, Option<(u64, u32)>)
        ensures front { result.0 ≡ length self.now }
        ensures last { IsLastChunk self.now inode result.1 }
    {
        let last = self.chunks.last_from(inode.get(), 0);
        (self.history.len() as u64, last)
    }

    /// Why something done to an inode is refused, if it is.
    fn refusal(&self, inode: u64, full: bool) -> Option<NodeError>
        ensures none { IfNone result ((removal_of self.now inode ≡ None) × (full ≡ false)) }
        ensures some { IfSome result (λ why. HasNodeCause (removal_of self.now inode) full why) }
    {
        match self.removed.get(&inode) {
            Some(version) => Some(NodeError::Removed(*version)),
            None => { if full { Some(NodeError::Full) } else { None } }
        }
    }

    fn is_full(&self) -> bool
        ensures { result ≡ is_full self.now }
    {
        self.counted >= NODE_CALLS
    }

    fn is_full_for(&self, len: u32) -> bool
        ensures { result ≡ is_full_for self.now len }
    {
        self.written + u64::from(len) > NODE_BYTES || self.counted >= NODE_CALLS
    }

    /// Writes one byte value over a range of a chunk, and answers the place in the history.
    pub fn write(&mut self, w: WriteDone) -> Result<u64, NodeError>
        requires some { 1 ≤ w.len }
        requires short { w.offset + w.len ≤ CHUNK_BYTES }
        ensures ok { OnOk result (self.new ≡ self.old ++ Done.Write w ∷ []) }
        ensures place { IfOk result (λ place. place ≡ length self.old + 1) }
        ensures unremoved { OnOk result (removal_of self.old w.inode ≡ None) }
        ensures room { OnOk result (is_full_for self.old w.len ≡ false) }
        ensures err { OnErr result (self.new ≡ self.old) }
        ensures cause { IfErr result (λ why. HasNodeCause (removal_of self.old w.inode) (is_full_for self.old w.len) why) }
    {
        let full = self.is_full_for(w.len);
        if let Some(why) = self.refusal(w.inode.get(), full) {
            return Err(why);
        }
        let alloc = *self.history.allocator();
        self.history.reserve(1)?;
        self.chunks
            .overwrite(alloc, w.inode.get(), w.index, w.offset, w.len, w.fill)?;
        self.written += u64::from(w.len);
        self.counted += 1;
        if self.history.push(Done::Write(w)).is_err() {
            unreachable!()
        }
        Ok(self.history.len() as u64)
    }

    /// Cuts an inode's chunks, and answers the place in the history.
    pub fn set_end(&mut self, s: EndDone) -> Result<u64, NodeError>
        requires holds { s.holds ≡ true → 1 ≤ s.keep }
        requires short { s.rest ≤ CHUNK_BYTES }
        ensures ok { OnOk result (self.new ≡ self.old ++ Done.SetEnd s ∷ []) }
        ensures place { IfOk result (λ place. place ≡ length self.old + 1) }
        ensures unremoved { OnOk result (removal_of self.old s.inode ≡ None) }
        ensures room { OnOk result (is_full self.old ≡ false) }
        ensures err { OnErr result (self.new ≡ self.old) }
        ensures cause { IfErr result
            (λ why. HasNodeCause (removal_of self.old s.inode) (is_full self.old) why) }
    {
        let full = self.is_full();
        if let Some(why) = self.refusal(s.inode.get(), full) {
            return Err(why);
        }
        let alloc = *self.history.allocator();
        self.history.reserve(1)?;
        self.chunks.end(alloc, &s)?;
        self.counted += 1;
        if self.history.push(Done::SetEnd(s)).is_err() {
            unreachable!()
        }
        Ok(self.history.len() as u64)
    }

    /// Takes away all chunks of an inode, and answers the front. Where that was done before, nothing is.
    pub fn remove_inode(&mut self, inode: InodeId, version: u64) -> Result<u64, Memory>
        ensures ok { OnOk result (self.new ≡ after_removal self.old inode version) }
        ensures front { IfOk result (λ front. front ≡ length self.new) }
        ensures err { OnErr result (self.new ≡ self.old) }
    {
        if self.removed.contains_key(&inode.get()) {
            return Ok(self.history.len() as u64);
        }
        self.history.reserve(1)?;
        self.removed.insert(inode.get(), version)?;
        self.chunks.cut(inode.get(), 0);
        if self.history.push(Done::Remove { inode, version }).is_err() {
            unreachable!()
        }
        Ok(self.history.len() as u64)
    }

    /// What the node has done, in order.
    pub fn into_history(self) -> Vec<Done>
        ensures { result.items ≡ self }
    {
        self.history
    }
}
