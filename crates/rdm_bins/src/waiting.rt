//! Receives and messages on shelves, and what is looked for there.
ghost use Rattle.std.specs.Prelude.{◌≡◌, option_map};
ghost use Rattle.rdm_num.specs.Lives.{same_life, is_life};
ghost use Rattle.rdm_match.specs.Matcher as Plain;
ghost use Rattle.rdm_bins.specs.Binning.{tag_bits, recv_bin, bin_of_want, bin_of_recv, group_of_recv, bin_of_message, group_of_message};

use crate::shelf::{Criterion, Shelved};
use rdm_match::{Arrived, PostedRecv, accepts};
use rdm_num::{Life, RecvNo, Want, is_same_life};

impl Shelved for PostedRecv {
    ghost bin_of = { bin_of_recv };

    ghost group_of = { group_of_recv };

    fn bin(&self) -> Option<u64> {
        bin_of_receive(self.from, self.want)
    }

    fn group(&self) -> Option<u64> {
        Some(self.id.0)
    }
}

impl Shelved for Arrived {
    ghost bin_of = { bin_of_message };

    ghost group_of = { group_of_message };

    fn bin(&self) -> Option<u64> {
        bin_of_tag(self.tag)
    }

    fn group(&self) -> Option<u64> {
        Some(u64::from(self.life.port.0))
    }
}

/// A receive from any source with an exact tag waits in the bin of that tag.
#[tactic(auto, unfolding(crate::specs::Binning::recv_bin))]
fn bin_of_receive(from: Option<Life>, want: Option<Want>) -> Option<u64>
    ensures { result ≡ recv_bin from want }
{
    match from {
        None => exact_tag(want),
        Some(_source) => None,
    }
}

/// The tag that is wanted with each bit compared.
#[tactic(auto, unfolding(crate::specs::Binning::bin_of_want))]
fn exact_tag(want: Option<Want>) -> Option<u64>
    ensures { result ≡ bin_of_want want }
{
    match want {
        None => None,
        Some(want) => {
            if want.ignore == 0 {
                Some(want.tag)
            } else {
                None
            }
        }
    }
}

/// A message waits in the bin of its tag.
fn bin_of_tag(tag: Option<u64>) -> Option<u64>
    ensures { result ≡ option_map tag_bits tag }
{
    match tag {
        None => None,
        Some(tag) => Some(tag),
    }
}

/// The messages that a receive accepts.
#[derive(Drop)]
pub struct AcceptedBy(pub PostedRecv);

impl Criterion<Arrived> for AcceptedBy {
    ghost test = { λ t a. Plain.accepts t.0 a };

    fn passes(&self, item: &Arrived) -> bool {
        accepts(&self.0, item)
    }
}

/// The receives that accept a message.
#[derive(Drop)]
pub struct Accepting(pub Arrived);

impl Criterion<PostedRecv> for Accepting {
    ghost test = { λ t r. Plain.accepts r t.0 };

    fn passes(&self, item: &PostedRecv) -> bool {
        accepts(item, &self.0)
    }
}

/// The receives of a number.
#[derive(Drop)]
pub struct Numbered(pub RecvNo);

impl Criterion<PostedRecv> for Numbered {
    ghost test = { λ t r. Plain.is_recv t.0.0 r };

    fn passes(&self, item: &PostedRecv) -> bool {
        is_number(item, self.0)
    }
}

/// The messages of a life.
#[derive(Drop)]
pub struct ComingFrom(pub Life);

impl Criterion<Arrived> for ComingFrom {
    ghost test = { λ t a. same_life a.life t.0 };

    fn passes(&self, item: &Arrived) -> bool {
        is_same_life(item.life, self.0)
    }
}

/// The receives that name a life.
#[derive(Drop)]
pub struct Naming(pub Life);

impl Criterion<PostedRecv> for Naming {
    ghost test = { λ t r. is_life r.from t.0 };

    fn passes(&self, item: &PostedRecv) -> bool {
        names(item.from, self.0)
    }
}

/// The receive has that number.
#[tactic(auto, unfolding(rdm_match::specs::Matcher::is_recv))]
fn is_number(r: &PostedRecv, id: RecvNo) -> bool
    ensures { result ≡ Plain.is_recv id.0 r.now }
{
    r.id.0 == id.0
}

/// The source is named, and is that life.
#[tactic(auto, unfolding(rdm_num::specs::Lives::is_life))]
fn names(from: Option<Life>, life: Life) -> bool
    ensures { result ≡ is_life from life }
{
    match from {
        None => false,
        Some(from) => is_same_life(from, life),
    }
}
