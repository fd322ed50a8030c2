//! Worked rows, computed by the check. Deliveries have the latest first.

ghost use Rattle.std.specs.Prelude.{◌≡◌, [], ◌∷◌, map};
ghost use Rattle.books_spec.specs.Rows.{figures};
ghost use Rattle.books_spec.specs.BookRows.{sound_totals};
ghost use Rattle.books_spec.specs.WholeBooks.{whole_books};
ghost use Rattle.account_spec.specs.Histories.{IsHistory};
ghost use Rattle.account_spec.specs.Deliveries.{AreSent, item};
ghost use Rattle.account_spec.specs.Accounts.{account};
ghost use Rattle.account_spec.specs.Premises.{Visible, Close, Apparent, Roomy, Premises};
ghost use Rattle.account_spec.specs.FarRows.{many_sent, two_far_apart, received};
ghost use Rattle.account_spec.specs.Rows.{usual, stream_line, port_line, one_source, all_happens, all_delivered, hidden_restart, after_hidden_restart, hidden_reset, after_hidden_reset, two_sub_agents, of_two_sub_agents, one_stream};

/// A history that meets all premises, while datagrams are lost, come twice and out of order, a source is reset, its
/// sub-agent restarts, and the numbers of datagrams and samples, the pool, the drops and the uptime pass 2^32.
#[tactic(auto, unfolding(count_spec::specs::Parts::between))]
pub fn all_happens_row()
    ensures premises { Premises usual all_happens all_delivered }
    ensures books { whole_books usual (map item all_delivered)
        ≡ one_source 8 (stream_line (figures 7 6 0 1 1 0) 2 1) (port_line 3 (figures 7 5 0 2 0 0) 5 1 1) }
    ensures account { account usual all_happens all_delivered
        ≡ one_source 8 (stream_line (figures 7 6 0 1 1 0) 2 1) (port_line 3 (figures 7 5 0 2 0 0) 5 1 1) }
{}

/// A restart within the slack: all but Visible holds, and the collector takes the second boot's datagram for a copy.
#[tactic(auto, unfolding(count_spec::specs::Parts::between))]
pub fn hidden_restart_row()
    ensures history { IsHistory hidden_restart × AreSent hidden_restart after_hidden_restart }
    ensures not_visible { Visible usual hidden_restart after_hidden_restart → ⊥ }
    ensures close { Close usual hidden_restart after_hidden_restart }
    ensures roomy { Roomy usual after_hidden_restart }
    ensures apparent { Apparent usual hidden_restart after_hidden_restart }
    ensures books { whole_books usual (map item after_hidden_restart)
        ≡ one_source 2 (stream_line (figures 1 1 0 0 1 0) 1 0) (port_line 1 (figures 1 1 0 0 0 0) 0 0 0) }
    ensures account { account usual hidden_restart after_hidden_restart
        ≡ one_source 2 (stream_line (figures 2 2 0 0 0 0) 2 0) (port_line 2 (figures 2 2 0 0 0 0) 0 0 0) }
{}

/// A reset whose first datagram comes before all others: all but Apparent holds, and the collector takes the sample of
/// the first generation for one of the second, once more.
#[tactic(auto, unfolding(count_spec::specs::Parts::between))]
pub fn hidden_reset_row()
    ensures history { IsHistory hidden_reset × AreSent hidden_reset after_hidden_reset }
    ensures visible { Visible usual hidden_reset after_hidden_reset }
    ensures close { Close usual hidden_reset after_hidden_reset }
    ensures roomy { Roomy usual after_hidden_reset }
    ensures not_apparent { Apparent usual hidden_reset after_hidden_reset → ⊥ }
    ensures books { whole_books usual (map item after_hidden_reset)
        ≡ one_source 2 (stream_line (figures 2 2 0 0 0 0) 1 0) (port_line 1 (figures 1 1 0 0 1 0) 0 0 0) }
    ensures account { account usual hidden_reset after_hidden_reset
        ≡ one_source 2 (stream_line (figures 2 2 0 0 0 0) 1 0) (port_line 1 (figures 1 1 0 0 0 0) 0 0 1) }
{}

/// Room for one sub-agent of two: all but Roomy holds, and the collector doesn't list the second.
#[tactic(auto, unfolding(count_spec::specs::Parts::between))]
pub fn no_room_row()
    ensures history { IsHistory two_sub_agents × AreSent two_sub_agents of_two_sub_agents }
    ensures visible { Visible one_stream two_sub_agents of_two_sub_agents }
    ensures close { Close one_stream two_sub_agents of_two_sub_agents }
    ensures not_roomy { Roomy one_stream of_two_sub_agents → ⊥ }
    ensures apparent { Apparent one_stream two_sub_agents of_two_sub_agents }
    ensures books { (whole_books one_stream (map item of_two_sub_agents)).totals ≡ sound_totals 2 1 0 0 }
    ensures account { (account one_stream two_sub_agents of_two_sub_agents).totals ≡ sound_totals 2 0 0 0 }
{}

/// Two datagrams, and their samples, 2^31 numbers apart: all but Close holds, and the collector takes the second for one
/// from before the first.
pub fn far_apart_row()
    ensures history { IsHistory many_sent }
    ensures sent { AreSent many_sent two_far_apart }
    ensures visible { Visible usual many_sent two_far_apart }
    ensures not_close { Close usual many_sent two_far_apart → ⊥ }
    ensures roomy { Roomy usual two_far_apart }
    ensures apparent { Apparent usual many_sent two_far_apart }
    ensures books { received (whole_books usual (map item two_far_apart)).streams ≡ 1 }
    ensures account { received (account usual many_sent two_far_apart).streams ≡ 2 }
{}
