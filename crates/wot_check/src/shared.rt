//! What threads may share and hand on.

use crate::fault::RowFault;

fn shared<T: Send + Sync>(_value: &T) {}

/// What the check names may be read by several threads at once.
pub fn faults_are_shared(fault: &RowFault) {
    shared(fault);
}
