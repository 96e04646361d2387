//! What is known of lives.
ghost use Rattle.std.specs.Prelude.{◌≡◌, ◌<◌, ◌≤◌, ◌+◌, true, not, ◌||◌, vec_len, vec_capacity};
ghost use Rattle.std.specs.List.{position_from};
ghost use Rattle.rdm_num.specs.Lives.{same_life};
ghost use Rattle.rdm_hdr.specs.Fields.{has_bit};
ghost use Rattle.rdm_pkt.specs.Grammar.{opt_fits};
ghost use Rattle.rdm_model.specs.Answers.{lacks_confirm};
ghost use Rattle.rdm_model.specs.Replies.{confirm_feature};
ghost use Rattle.rdm_model.specs.Sends as Sends;
ghost use Rattle.rdm_ep.specs.Peers.{peer_in, put_peer, IsPeerPlace};

use crate::state::Peer;
use rdm_hdr::Opt;
use rdm_num::Life;

/// Searches for what is known of a life.
#[tactic(auto, unfolding(rdm_num::specs::Lives::same_life))]
fn search(peers: &[Peer], life: Life) -> Option<usize>
    ensures { result ≡ position_from (λ p. same_life p.life life) 0 peers.now }
{
    peers.iter().position(|peer| peer.life.port.0 == life.port.0
        && peer.life.connid.0 == life.connid.0)
}

/// Where what is known of a life stands.
fn place_of(peers: &[Peer], life: Life) -> Option<usize>
    ensures { IsPeerPlace life peers.now result }
{
    search(peers, life)
}

/// What is known of a life.
pub fn peer_of(peers: &[Peer], life: Life) -> Peer
    ensures { result ≡ peer_in peers.now life }
{
    match place_of(peers, life) {
        Some(at) => peers[at],
        None => Peer {
            life,
            greeted: false,
            known: None,
            sent: 0,
            entered: 0,
        },
    }
}

/// Writes what is known of a life, where there is room for one more.
pub fn write_peer(peers: &mut Vec<Peer>, life: Life, new: Peer)
    requires { vec_len peers.old < vec_capacity peers.old }
    ensures items { peers.new.items ≡ put_peer life new peers.old.items }
    ensures room { vec_capacity peers.new ≡ vec_capacity peers.old }
    ensures count { vec_len peers.new ≤ vec_len peers.old + 1 }
{
    match place_of(peers, life) {
        Some(at) => peers[at] = new,
        None => peers.push_reserved(new),
    }
}

/// A peer with these features wants the raw address in every packet; so does one of which nothing
/// is known.
#[tactic(auto, unfolding(rdm_model::specs::Sends::wants_raw, rdm_hdr::specs::Fields::has_bit))]
pub fn wants_raw(known: Option<u64>) -> bool
    ensures { result ≡ Sends.wants_raw known }
{
    match known {
        None => true,
        Some(word) => word / 4 % 2 == 1,
    }
}

/// The own life or the one that a send goes to cannot confirm, as far as is known.
#[tactic(auto, unfolding(rdm_model::specs::Answers::lacks_confirm, rdm_hdr::specs::Fields::has_bit))]
pub fn cannot_confirm(own: u64, known: Option<u64>) -> bool
    ensures { result ≡ (not (has_bit confirm_feature own) || lacks_confirm known) }
{
    match known {
        None => !can_confirm(own),
        Some(word) => !can_confirm(own) || !can_confirm(word),
    }
}

/// A life of these features can confirm that it received a message.
#[tactic(auto, unfolding(rdm_hdr::specs::Fields::has_bit))]
pub fn can_confirm(features: u64) -> bool
    ensures { result ≡ has_bit confirm_feature features }
{
    features / 2 % 2 == 1
}

/// The optional headers of a send's packets.
#[tactic(auto, unfolding(rdm_model::specs::Sends::opt_for, rdm_pkt::specs::Grammar::opt_fits))]
pub fn opt_for(life: Life, raw: bool, cq_data: Option<u64>) -> Opt
    ensures opt { result ≡ Sends.opt_for life raw cq_data }
    ensures fits { opt_fits result ≡ true }
{
    if raw {
        Opt {
            raw: Some((life.port.0, life.connid.0)),
            cq_data,
            connid: None,
        }
    } else {
        Opt {
            raw: None,
            cq_data,
            connid: Some(life.connid.0),
        }
    }
}
