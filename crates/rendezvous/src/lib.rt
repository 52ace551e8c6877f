//! Which server does the length work of an inode: a rendezvous hash over the servers that there are.
#![tactic(auto)]

ghost use Rattle.std.specs.Prelude.{◌≡◌, ◌≢◌, []};
ghost use Rattle.rendezvous.specs.Owners.{score, higher, owner_of, IsRising, IsOwner, KeepsOwners};

use fs_base::InodeId;

/// How high a server stands for an inode, 0 to 65,535. Nothing is claimed of its spread.
#[tactic(auto, unfolding(crate::specs::Owners::score))]
pub fn score(inode: InodeId, server: u8) -> u32
    ensures { result ≡ score inode server }
{
    let place = (inode.get() % 65_536 * 40_503 + u64::from(server) * 30_011 + 1) % 65_536;
    (place * place / 256 % 65_536) as u32
}

/// The server with the greatest score, and of equal ones the least number.
pub fn owner(inode: InodeId, servers: &[u8]) -> u8
    requires some { servers.now ≢ [] }
    requires rising { IsRising servers.now }
    ensures value { result ≡ owner_of inode servers.now }
    ensures owner { IsOwner inode servers.now result }
{
    highest(inode, servers)
}

/// The first of the servers that stand highest.
fn highest(inode: InodeId, servers: &[u8]) -> u8
    requires { servers.now ≢ [] }
    ensures { result ≡ owner_of inode servers.now }
{
    let mut owner = servers[0];
    for server in &servers[1..] {
        owner = higher(inode, owner, *server);
    }
    owner
}

/// The server that stands higher, and of equal ones the first.
fn higher(inode: InodeId, first: u8, second: u8) -> u8
    ensures { result ≡ higher inode first second }
{
    if score(inode, first) < score(inode, second) {
        second
    } else {
        first
    }
}

/// Taking one server out changes the owner only of what that server owned. It does nothing; its contract is
/// the law.
pub fn owners_stay()
    ensures { KeepsOwners }
{}
