//! Instructions as they are read.
ghost use Rattle.std.specs.Prelude.{◌≡◌, IfOk, option_to_list};
ghost use Rattle.rdm_model.specs.Jobs.{is_rank_or_none, needs_life, is_open_after, opened_by, sent_length};
ghost use Rattle.rdm_script.specs.Programs.{port_named, made_length};
ghost use Rattle.rdm_script.specs.Drafts.{made, capped};

use crate::content::Content;
use crate::ranges::spans_length;
use rdm_model::Instr;
use rdm_num::{NoMemory, PortNo};
use std::alloc::Global;

/// An instruction of a program, whose region has no content yet.
#[derive(Drop)]
pub enum Draft<'v> {
    Made(Instr),
    Region(Content<'v>),
}

impl<'v> Draft<'v> {
    /// The port that it names.
    fn port_named(&self) -> Option<PortNo>
        ensures { result ≡ port_named (made self.now) }
    {
        match self {
            Draft::Made(Instr::Insert { life }) => Some(life.port),
            Draft::Made(Instr::Send(req)) => Some(req.to),
            Draft::Made(Instr::Recv(req)) => req.from,
            Draft::Made(Instr::Note { to, .. }) => Some(*to),
            Draft::Made(Instr::Await { from, .. }) => Some(*from),
            _ => None,
        }
    }

    /// The port that it names is one of so many.
    #[tactic(auto, unfolding(rdm_model::specs::Jobs::is_rank_or_none, rdm_model::specs::Jobs::is_rank))]
    pub fn names_rank(&self, ports: u32) -> bool
        ensures { result ≡ is_rank_or_none ports (port_named (made self.now)) }
    {
        match self.port_named() {
            Some(port) => port.0 < ports,
            None => true,
        }
    }

    /// It needs an open life.
    #[tactic(auto, unfolding(rdm_model::specs::Jobs::needs_life))]
    pub fn needs_life(&self) -> bool
        ensures { result ≡ needs_life (made self.now) }
    {
        !matches!(
            self,
            Draft::Made(Instr::OpenLife { .. } | Instr::Note { .. } | Instr::Await { .. })
        )
    }

    /// The identifier that it opens.
    #[tactic(auto, unfolding(rdm_model::specs::Jobs::opened_by))]
    pub fn opened(&self) -> Option<u32>
        ensures { option_to_list result ≡ opened_by (made self.now) }
    {
        match self {
            Draft::Made(Instr::OpenLife { connid }) => Some(connid.0),
            _ => None,
        }
    }

    /// A life is open after it.
    #[tactic(auto, unfolding(rdm_model::specs::Jobs::is_open_after))]
    pub fn is_open_after(&self, was: bool) -> bool
        ensures { result ≡ is_open_after was (made self.now) }
    {
        match self {
            Draft::Made(Instr::OpenLife { .. }) => true,
            Draft::Made(Instr::CloseLife) => false,
            _ => was,
        }
    }

    /// How many bytes it makes.
    pub fn made_length(&self) -> u64
        ensures { result ≡ made_length (made self.now) }
    {
        match self {
            Draft::Region(content) => content.len(),
            Draft::Made(Instr::Reg { content }) => content.len() as u64,
            Draft::Made(_) => 0,
        }
    }

    /// How many bytes it sends, up to the last number.
    #[tactic(auto, unfolding(rdm_model::specs::Jobs::sent_length))]
    pub fn sent_length(&self) -> u64
        ensures { result ≡ capped (sent_length (made self.now)) }
    {
        match self {
            Draft::Made(Instr::Send(req)) => spans_length(req.parts.as_slice()),
            _ => 0,
        }
    }

    /// Makes the instruction.
    pub fn make(self, alloc: Global) -> Result<Instr, NoMemory>
        ensures { IfOk result (λ i. i ≡ made self.entry) }
    {
        match self {
            Draft::Made(instr) => Ok(instr),
            Draft::Region(content) => Ok(Instr::Reg {
                content: content.make(alloc)?,
            }),
        }
    }
}
