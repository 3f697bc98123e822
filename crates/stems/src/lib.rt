// The calls for all voices and for one voice alone (specs/Call), what a call for all voices leaves whatever its order (specs/Whole), when
// it gives each number (specs/Exactly), runs of calls and what document 01 says of a whole run and its stems (specs/Stems), with the proofs
// (proofs/). Of code there is the struct that the calls take.
#![tactic(auto)]

use layout::Layout;

// What is handed to every call of a run alike: the layout and the window's base.
#[derive(Clone, Copy)]
pub struct Fixed {
    pub layout: Layout,
    pub base: u32,
}
