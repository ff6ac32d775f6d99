// Why a configuration does not go on.

// Over: a table is full (21).
#[derive(Clone, Copy)]
pub enum Failure {
    Contradiction,
    Over,
}
