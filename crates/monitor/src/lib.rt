//! The monitor of running programs: its one top call, over a port through which the trace comes and the messages go.
//! It stands on monitor_messages for what each line makes of what is known, and on no plan, board or world.
//! The tests of the monitor stand in the gallery.
#![tactic(auto)]

mod ending;
mod hearing;
mod laws;
mod listener;
mod monitor_status;
mod port;
mod request;
mod top;
mod writing;

pub use laws::{one_cut, one_heard_output, one_whole_output};
pub use port::{Port, StdPort};
pub use request::{MonitorRequest, monitor_request_of};
pub use top::monitor;
