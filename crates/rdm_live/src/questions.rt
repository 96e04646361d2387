//! What is asked of live receives.
ghost use Rattle.std.specs.Prelude.{◌≡◌, option_copied};
ghost use Rattle.rdm_live.specs.View.{of_message, IsLive};

use crate::live::Live;
use rdm_num::{Life, MsgNo};
use rdm_receives::Receive;

impl Live {
    /// What is known of live receives at all times.
    pub fn live_law(&self)
        ensures { IsLive self.now }
    {
        let _is_full = self.is_full();
    }

    /// The receive that takes a message.
    pub fn of_message(&self, source: Life, no: MsgNo) -> Option<&Receive>
        ensures { option_copied result ≡ of_message self.now source no }
    {
        self.live_law();
        let number = self.matched.receive_of(source, no)?;
        self.get(number)
    }
}
