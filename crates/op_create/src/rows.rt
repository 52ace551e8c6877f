ghost use Rattle.std.specs.Prelude.{◌≡◌, ◌<◌, ◌≤◌, [], unwrap_or, IfOk, OnOk, IsTrue};
ghost use Rattle.fs_base.specs.Names.{is_name};
ghost use Rattle.tree_model.specs.Creating.{id_of};
ghost use Rattle.tree_model.specs.declared.walk.Walked.TheVariants.{AtParent};
ghost use Rattle.path_walk.specs.Puts.{put_writes};
ghost use Rattle.op_create.specs.Create.{IsCreateEndStep, IsCreateReady, HasComeTo};
ghost use Rattle.row_tree.specs.NewRows.{new_row, row_part};
ghost use Rattle.op_create.specs.NewRows.{MayMake, node_puts};

use crate::task::CreateTask;
use fs_base::limits::{CHAINS, INODE_IDS, LAST_NUMBER, SERVERS};
use fs_base::{Code, Config, DefaultLayout, InodeId, Items, Limit, Memory, Name, Reply};
use inode_record::{InodePart, InodeRow};
use row_records::DentRow;
use std::alloc::Global;
use tree_model::{NewPart, first_hint, layout_at};
use txn_task::{OpStep, Txn, kind_of, put_entry, put_inode, put_next};

/// A chain is one of at most 256, an inode's number below 2^36, and a name one of those that may be.
fn in_range(config: &Config, dir: InodeId, name: &Name)
    ensures chains { config.now.chains ≤ CHAINS }
    ensures dir { dir < INODE_IDS }
    ensures name { IsTrue (is_name name.now) }
{
    let _chains = config.chains();
    let _dir = dir.get();
    let _name = name.bytes();
}

/// What the row of the inode with this id has by its kind.
fn part_at(
    config: &Config,
    part: &NewPart,
    id: InodeId,
    dir: InodeId,
    layout: DefaultLayout,
) -> Result<InodePart, Memory>
    ensures { IfOk result (λ made. made ≡ row_part config.now part.now id dir layout) }
{
    match part {
        NewPart::Dir => Ok(InodePart::Dir {
            parent: dir,
            chunk: layout.chunk,
            stripe: layout.stripe,
        }),
        NewPart::File => Ok(InodePart::File {
            length: 0,
            truncs: 0,
            layout: layout_at(config, id, layout),
            hint: first_hint(layout.stripe),
        }),
        NewPart::Link(target) => Ok(InodePart::Link {
            target: target.try_clone()?,
        }),
    }
}

impl CreateTask {
    /// The given layout, else the directory's default.
    fn chosen(&self, default: DefaultLayout) -> DefaultLayout
        ensures { result ≡ unwrap_or self.now.node.layout default }
    {
        self.node.layout.unwrap_or(default)
    }

    /// The row of the new node.
    fn row(&self, id: InodeId, dir: InodeId, layout: DefaultLayout) -> Result<InodeRow, Memory>
        ensures { IfOk result
            (λ row. row ≡ new_row self.now.config self.now.node self.now.stamp id dir layout) }
    {
        let part = part_at(&self.config, &self.node.part, id, dir, layout)?;
        Ok(InodeRow {
            mode: self.node.mode,
            owner: 0,
            group: 0,
            links: 1,
            atime: self.stamp,
            mtime: self.stamp,
            ctime: self.stamp,
            part,
        })
    }

    /// Puts the rows of the new node with the server's next number, and gives its id.
    fn put_node(
        &self,
        alloc: Global,
        txn: &mut Txn,
        dir: InodeId,
        name: &Name,
        layout: DefaultLayout,
        number: u64,
    ) -> Result<InodeId, Memory>
        requires server { self.now.server < SERVERS }
        requires number { number < LAST_NUMBER }
        requires writes { txn.old.writes ≡ [] }
        ensures id { IfOk result (λ id. id ≡ id_of number self.now.server) }
        ensures puts { OnOk result
            (txn.new ≡ record txn.old { writes = put_writes (node_puts self.now dir name.now layout number) }) }
    {
        let id = InodeId::new(16 * number + u64::from(self.server));
        let row = self.row(id, dir, layout)?;
        let kind = kind_of(&row.part);
        put_inode(alloc, txn, id, &row)?;
        put_entry(alloc, txn, dir, name, DentRow { inode: id, kind })?;
        put_next(alloc, txn, self.server, number + 1)?;
        Ok(id)
    }

    /// The node, where the server's next number is this.
    pub(crate) fn put(
        &self,
        alloc: Global,
        txn: &mut Txn,
        dir: InodeId,
        name: &Name,
        default: DefaultLayout,
        number: u64,
    ) -> Result<OpStep, Memory>
        requires ready { IsCreateReady self.now }
        requires come { HasComeTo self.now txn.old.reads }
        requires writes { txn.old.writes ≡ [] }
        requires may { MayMake self.now txn.old.reads dir name.now default number }
        ensures { IfOk result (IsCreateEndStep self.now (AtParent dir name.now) txn.old txn.new) }
    {
        if number >= LAST_NUMBER as u64 {
            return Ok(OpStep::Reply(Reply::Refused(Code::AtLimit(Limit::Inodes))));
        }
        in_range(&self.config, dir, name);
        let layout = self.chosen(default);
        let id = self.put_node(alloc, txn, dir, name, layout, number)?;
        Ok(OpStep::Commit(Reply::Made(id), Items::new(alloc)))
    }
}
