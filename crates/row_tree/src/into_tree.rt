ghost use Rattle.std.specs.Prelude.{◌≡◌, ℕ, IfOk};
ghost use Rattle.row_records.specs.declared.rows.DentRow.{DentRow};
ghost use Rattle.tree_model.specs.Maps.{map_values};
ghost use Rattle.row_tree.specs.TreeOf.{node_part, node_of, kept_of, doom_of, tree_of};

use crate::typed::TypedRows;
use fs_base::{Config, DefaultLayout, InodeId, Memory};
use inode_record::{InodePart, InodeRow};
use row_records::{DentRow, GcRow, KeptRow};
use std::alloc::Global;
use tree_model::{
    ByClient, ByName, ByNumber, BySession, Doom, KeptReply, Node, NodePart, Tree, TreeParts,
};

fn node_part(part: InodePart) -> NodePart
    ensures { result ≡ node_part part }
{
    match part {
        InodePart::Dir { chunk, stripe, .. } => NodePart::Dir {
            layout: DefaultLayout { chunk, stripe },
        },
        InodePart::File {
            length,
            truncs,
            layout,
            hint,
        } => NodePart::File {
            length,
            truncs,
            layout,
            hint,
        },
        InodePart::Link { target } => NodePart::Link { target },
    }
}

fn node_of(row: InodeRow) -> Node
    ensures { result ≡ node_of row }
{
    Node {
        mode: row.mode,
        owner: row.owner,
        group: row.group,
        atime: row.atime,
        mtime: row.mtime,
        ctime: row.ctime,
        part: node_part(row.part),
    }
}

fn kept_of(row: KeptRow) -> KeptReply
    ensures { result ≡ kept_of row }
{
    KeptReply {
        number: row.number,
        reply: row.reply,
    }
}

fn doom_of(row: GcRow) -> Doom
    ensures { result ≡ doom_of row }
{
    match row {
        GcRow::Waiting => Doom::Waiting,
        GcRow::Purged { layout, hint } => Doom::Purged { layout, hint },
    }
}

fn nodes(alloc: Global, rows: ByNumber<InodeRow>) -> Result<ByNumber<Node>, Memory>
    ensures { IfOk result (λ nodes. nodes ≡ map_values node_of rows) }
{
    let mut nodes = ByNumber::new(alloc);
    for (id, row) in rows.into_entries() {
        nodes.insert(id, node_of(row))?;
    }
    Ok(nodes)
}

fn entries(alloc: Global, rows: ByName<DentRow>) -> Result<ByName<InodeId>, Memory>
    ensures { IfOk result (λ entries. entries ≡ map_values (λ (e : DentRow). e.inode) rows) }
{
    let mut entries = ByName::new(alloc);
    for (key, row) in rows.into_entries() {
        entries.insert(key, row.inode)?;
    }
    Ok(entries)
}

fn writers(alloc: Global, rows: BySession<u64>) -> Result<BySession<()>, Memory>
    ensures { IfOk result (λ writers. writers ≡ map_values (λ (stamp : ℕ). tt {0}) rows) }
{
    let mut writers = BySession::new(alloc);
    for (key, stamp) in rows.into_entries() {
        let _ = stamp;
        writers.insert(key, ())?;
    }
    Ok(writers)
}

fn kept(alloc: Global, rows: ByClient<KeptRow>) -> Result<ByClient<KeptReply>, Memory>
    ensures { IfOk result (λ kept. kept ≡ map_values kept_of rows) }
{
    let mut kept = ByClient::new(alloc);
    for (client, row) in rows.into_entries() {
        kept.insert(client, kept_of(row))?;
    }
    Ok(kept)
}

fn doomed(alloc: Global, rows: ByNumber<GcRow>) -> Result<ByNumber<Doom>, Memory>
    ensures { IfOk result (λ doomed. doomed ≡ map_values doom_of rows) }
{
    let mut doomed = ByNumber::new(alloc);
    for (id, row) in rows.into_entries() {
        doomed.insert(id, doom_of(row))?;
    }
    Ok(doomed)
}

/// The inodes, and the entries of directories.
fn placed(
    alloc: Global,
    inodes: ByNumber<InodeRow>,
    dents: ByName<DentRow>,
) -> Result<(ByNumber<Node>, ByName<InodeId>), Memory>
    ensures nodes { IfOk result (λ placed. placed.0 ≡ map_values node_of inodes) }
    ensures entries { IfOk result (λ placed. placed.1 ≡ map_values (λ (e : DentRow). e.inode) dents) }
{
    let nodes = nodes(alloc, inodes)?;
    let entries = entries(alloc, dents)?;
    Ok((nodes, entries))
}

/// What is kept of clients: their write sessions and last replies.
fn of_clients(
    alloc: Global,
    sessions: BySession<u64>,
    kept: ByClient<KeptRow>,
) -> Result<(BySession<()>, ByClient<KeptReply>), Memory>
    ensures writers { IfOk result (λ of. of.0 ≡ map_values (λ (stamp : ℕ). tt {0}) sessions) }
    ensures kept { IfOk result (λ of. of.1 ≡ map_values kept_of kept) }
{
    let writers = writers(alloc, sessions)?;
    let kept = self::kept(alloc, kept)?;
    Ok((writers, kept))
}

impl TypedRows {
    /// The tree that the rows are, whether or not they are well formed.
    pub(crate) fn into_tree(self, alloc: Global, config: Config) -> Result<Tree, Memory>
        ensures { IfOk result (λ t. t ≡ record { config = config; tree = tree_of self }) }
    {
        let (nodes, entries) = placed(alloc, self.inodes, self.dents)?;
        let (writers, kept) = of_clients(alloc, self.sessions, self.kept)?;
        let doomed = doomed(alloc, self.doomed)?;
        let parts = TreeParts {
            nodes,
            entries,
            writers,
            kept,
            doomed,
            next: self.next,
        };
        Ok(Tree::from_parts(config, parts))
    }
}
