//! One ask, answered by a storage node.

ghost use Rattle.std.specs.Prelude.{◌≡◌, ◌≤◌, true, IfOk, OnErr};
ghost use Rattle.chunk_node.specs.Ends.{IsLastChunk};
ghost use Rattle.txn_task.specs.declared.messages.Ask.TheVariants as asks;
ghost use Rattle.request_run.specs.Nodes.{IsNodeAnswer, MayAnswerAtNode};

use chunk_node::{EndDone, NodeError, NodeState};
use fs_base::limits::CHUNK_BYTES;
use fs_base::{ClientId, InodeId, Memory};
use txn_task::{Answer, Ask, Asked};

/// Cuts the inode's chunks, or is refused.
fn set_end(node: &mut NodeState, ask: EndDone) -> Result<Answer, Memory>
    requires holds { ask.holds ≡ true → 1 ≤ ask.keep }
    requires short { ask.rest ≤ CHUNK_BYTES }
    ensures answer { (at : _) → IfOk result
        (λ a. IsNodeAnswer node.old node.new ask.client ask.number
        (asks.SetEnd at ask.inode ask.keep ask.rest ask.holds) a) }
    ensures err { OnErr result (node.new ≡ node.old) }
{
    match node.set_end(ask) {
        Ok(front) => Ok(Answer::Did(front)),
        Err(NodeError::Memory) => Err(Memory),
        Err(why) => Ok(Answer::NodeRefused(why)),
    }
}

/// One ask of a request of this client and number, answered by the node that it is of.
///
/// Where memory is wanting the node has done nothing.
pub fn node_answer(
    node: &mut NodeState,
    client: ClientId,
    number: u64,
    ask: Ask,
) -> Result<Answer, Memory>
    requires { MayAnswerAtNode ask }
    ensures answer { IfOk result (λ a. IsNodeAnswer node.old node.new client number ask a) }
    ensures err { OnErr result (node.new ≡ node.old) }
{
    match ask {
        Ask::Query { node: at, inode } => {
            let (front, last) = node.query_end(inode);
            Ok(Answer::Ended(Asked {
                node: at,
                front,
                last,
            }))
        }
        Ask::SetEnd {
            node: _,
            inode,
            keep,
            rest,
            holds,
        } => {
            let end = EndDone {
                inode,
                keep,
                rest,
                holds,
                client,
                number,
            };
            let answer = set_end(node, end)?;
            Ok(answer)
        }
        Ask::Remove {
            node: _,
            inode,
            version,
        } => {
            let front = node.remove_inode(inode, version)?;
            Ok(Answer::Did(front))
        }
        _ => unreachable!(),
    }
}
