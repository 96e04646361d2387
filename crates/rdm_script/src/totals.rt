//! How much all ranks have together.
ghost use Rattle.std.specs.Prelude.{◌≡◌, ◌+◌, map, length, min, sum_by};
ghost use Rattle.rdm_model.specs.Jobs.{sent_length};
ghost use Rattle.rdm_script.specs.Programs.{made_length, is_too_big};
ghost use Rattle.rdm_script.specs.Drafts.{made, made_rank, capped};

use crate::draft::Draft;
use crate::ranks::RankDraft;
use rdm_num::{ALL_OPS_MAX, ALL_REGIONS_MAX, ALL_SENDS_MAX};

/// How many bytes a program makes, up to the last number.
fn made_total(drafts: &[Draft<'_>]) -> u64
    ensures { result ≡ capped (sum_by made_length (map made drafts.now)) }
{
    let mut total = 0u64;
    for draft in drafts {
        total = total.saturating_add(draft.made_length());
    }
    total
}

/// How many bytes a program sends, up to the last number.
fn sent_total(drafts: &[Draft<'_>]) -> u64
    ensures { result ≡ capped (sum_by sent_length (map made drafts.now)) }
{
    let mut total = 0u64;
    for draft in drafts {
        total = total.saturating_add(draft.sent_length());
    }
    total
}

/// All instructions, all regions or all sends together are too many.
pub fn is_too_big(ranks: &[RankDraft<'_>]) -> bool
    ensures { result ≡ is_too_big (map made_rank ranks.now) }
{
    let (mut ops, mut made, mut sent) = (0u64, 0u64, 0u64);
    for rank in ranks {
        let drafts = rank.drafts.as_slice();
        ops = ops.saturating_add(drafts.len() as u64);
        made = made.saturating_add(made_total(drafts));
        sent = sent.saturating_add(sent_total(drafts));
    }
    ops > ALL_OPS_MAX || made > ALL_REGIONS_MAX || sent > ALL_SENDS_MAX
}
