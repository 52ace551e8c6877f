ghost use Rattle.std.specs.Prelude.{◌≡◌, Some, IfOk, OnOk, IfErr, IsErrOf};
ghost use Rattle.conflict_sets.specs.Rows.{IsAscending};
ghost use Rattle.key_schema.specs.declared.key.Key.TheVariants as keys;
ghost use Rattle.row_tree.specs.Reading.{HasNoValue, IsNoRow, Puts, PutsRow, ReadsFreely};
ghost use Rattle.row_tree.specs.Spelling.{Spells};
ghost use Rattle.row_tree.specs.TypedRows as typed_rows;
ghost use Rattle.row_tree.specs.TypedRows.{no_rows};
ghost use Rattle.row_tree.specs.declared.tree.TreeError.TheVariants as errors;

use crate::tree::TreeError;
use crate::typed::TypedRows;
use fs_base::{ClientId, InodeId, Name, Row};
use inode_record::InodeRow;
use key_schema::{Key, KeyError};
use row_records::{AllocRow, DentRow, GcRow, KeptRow, RowError, SessionRow};
use std::alloc::Global;
use tree_model::{ByClient, ByName, ByNumber, BySession};

impl TypedRows {
    fn new(alloc: Global) -> TypedRows
        ensures { result ≡ no_rows }
    {
        TypedRows {
            inodes: ByNumber::new(alloc),
            dents: ByName::new(alloc),
            sessions: BySession::new(alloc),
            kept: ByClient::new(alloc),
            doomed: ByNumber::new(alloc),
            next: ByNumber::new(alloc),
        }
    }

    #[tactic(auto, using(crate::proofs::Putting::no_alloc, crate::proofs::Putting::puts_alloc, crate::proofs::Putting::alloc_small))]
    fn put_alloc(&mut self, alloc: Global, server: u8, value: &[u8]) -> Result<(), TreeError>
        ensures ok { OnOk result (Puts self.old self.new (keys.Alloc server) value.now) }
        ensures bad { IfErr result (λ e. e ≡ errors.BadRows → HasNoValue (keys.Alloc server) value.now) }
        ensures memory { HasNoValue (keys.Alloc server) value.now → IsErrOf result errors.BadRows }
    {
        match AllocRow::read(alloc, value) {
            Ok(row) => {
                self.next.insert(u64::from(server), row.next as u32)?;
                Ok(())
            }
            Err(RowError::NotARecord(_)) => Err(TreeError::BadRows),
            Err(RowError::Memory) => Err(TreeError::Memory),
        }
    }

    #[tactic(auto, using(crate::proofs::Putting::no_dent, crate::proofs::Putting::puts_dent))]
    fn put_dent(
        &mut self,
        alloc: Global,
        dir: InodeId,
        name: Name,
        value: &[u8],
    ) -> Result<(), TreeError>
        ensures ok { OnOk result (Puts self.old self.new (keys.Dent dir name) value.now) }
        ensures bad { IfErr result (λ e. e ≡ errors.BadRows → HasNoValue (keys.Dent dir name) value.now) }
        ensures memory { HasNoValue (keys.Dent dir name) value.now → IsErrOf result errors.BadRows }
    {
        match DentRow::read(alloc, value) {
            Ok(row) => {
                self.dents.insert((dir.get(), name), row)?;
                Ok(())
            }
            Err(RowError::NotARecord(_)) => Err(TreeError::BadRows),
            Err(RowError::Memory) => Err(TreeError::Memory),
        }
    }

    #[tactic(auto, using(crate::proofs::Putting::no_gc, crate::proofs::Putting::puts_gc))]
    fn put_gc(&mut self, alloc: Global, id: InodeId, value: &[u8]) -> Result<(), TreeError>
        ensures ok { OnOk result (Puts self.old self.new (keys.Gc id) value.now) }
        ensures bad { IfErr result (λ e. e ≡ errors.BadRows → HasNoValue (keys.Gc id) value.now) }
        ensures memory { HasNoValue (keys.Gc id) value.now → IsErrOf result errors.BadRows }
    {
        match GcRow::read(alloc, value) {
            Ok(row) => {
                self.doomed.insert(id.get(), row)?;
                Ok(())
            }
            Err(RowError::NotARecord(_)) => Err(TreeError::BadRows),
            Err(RowError::Memory) => Err(TreeError::Memory),
        }
    }

    #[tactic(auto, using(crate::proofs::Putting::no_kept, crate::proofs::Putting::puts_kept))]
    fn put_kept(&mut self, alloc: Global, client: ClientId, value: &[u8]) -> Result<(), TreeError>
        ensures ok { OnOk result (Puts self.old self.new (keys.Idem client) value.now) }
        ensures bad { IfErr result (λ e. e ≡ errors.BadRows → HasNoValue (keys.Idem client) value.now) }
    {
        match KeptRow::read(alloc, value) {
            Ok(row) => {
                self.kept.insert(client.0, row)?;
                Ok(())
            }
            Err(RowError::NotARecord(_)) => Err(TreeError::BadRows),
            Err(RowError::Memory) => Err(TreeError::Memory),
        }
    }

    #[tactic(auto, using(crate::proofs::Putting::no_inode, crate::proofs::Putting::puts_inode))]
    fn put_inode(&mut self, alloc: Global, id: InodeId, value: &[u8]) -> Result<(), TreeError>
        ensures ok { OnOk result (Puts self.old self.new (keys.Inode id) value.now) }
        ensures bad { IfErr result (λ e. e ≡ errors.BadRows → HasNoValue (keys.Inode id) value.now) }
    {
        match InodeRow::read(alloc, value) {
            Ok(row) => {
                self.inodes.insert(id.get(), row)?;
                Ok(())
            }
            Err(RowError::NotARecord(_)) => Err(TreeError::BadRows),
            Err(RowError::Memory) => Err(TreeError::Memory),
        }
    }

    #[tactic(auto, using(crate::proofs::Putting::no_session, crate::proofs::Putting::puts_session))]
    fn put_session(
        &mut self,
        alloc: Global,
        inode: InodeId,
        client: ClientId,
        number: u64,
        value: &[u8],
    ) -> Result<(), TreeError>
        ensures ok { OnOk result (Puts self.old self.new (keys.Session inode client number) value.now) }
        ensures bad { IfErr result
            (λ e. e ≡ errors.BadRows → HasNoValue (keys.Session inode client number) value.now) }
        ensures memory { HasNoValue (keys.Session inode client number) value.now → IsErrOf result errors.BadRows }
    {
        match SessionRow::read(alloc, value) {
            Ok(row) => {
                self.sessions
                    .insert((inode.get(), (client.0, number)), row.stamp)?;
                Ok(())
            }
            Err(RowError::NotARecord(_)) => Err(TreeError::BadRows),
            Err(RowError::Memory) => Err(TreeError::Memory),
        }
    }

    /// Puts a value at its key, where it is one of the key's form.
    fn put(&mut self, alloc: Global, key: Key, value: &[u8]) -> Result<(), TreeError>
        ensures ok { OnOk result (Puts self.old self.new key value.now) }
        ensures bad { IfErr result (λ e. e ≡ errors.BadRows → HasNoValue key value.now) }
        ensures memory { ReadsFreely key → HasNoValue key value.now → IsErrOf result errors.BadRows }
    {
        match key {
            Key::Alloc(server) => self.put_alloc(alloc, server, value),
            Key::Dent(dir, name) => self.put_dent(alloc, dir, name, value),
            Key::Gc(id) => self.put_gc(alloc, id, value),
            Key::Idem(client) => self.put_kept(alloc, client, value),
            Key::Inode(id) => self.put_inode(alloc, id, value),
            Key::Session(inode, client, number) => {
                self.put_session(alloc, inode, client, number, value)
            }
        }
    }

    fn put_row(&mut self, alloc: Global, row: &Row) -> Result<(), TreeError>
        ensures ok { OnOk result (PutsRow self.old self.new row.now) }
        ensures bad { IfErr result (λ e. e ≡ errors.BadRows → IsNoRow row.now) }
    {
        match Key::read(alloc, row.key.as_slice()) {
            Ok(key) => self.put(alloc, key, row.value.as_slice()),
            Err(KeyError::NotAKey) => Err(TreeError::BadRows),
            Err(KeyError::Memory) => Err(TreeError::Memory),
        }
    }
}

/// The rows by their keys' forms; `BadRows` exactly where a key or a value is none.
pub(crate) fn read_rows(alloc: Global, rows: &[Row]) -> Result<TypedRows, TreeError>
    requires { IsAscending rows.now }
    ensures ok { IfOk result (λ typed. Spells rows.now typed) }
    ensures bad { IfErr result (λ e. e ≡ errors.BadRows → (S : typed_rows.TypedRows) → Spells rows.now S → ⊥) }
{
    let mut typed = TypedRows::new(alloc);
    for row in rows {
        typed.put_row(alloc, row)?;
    }
    Ok(typed)
}
