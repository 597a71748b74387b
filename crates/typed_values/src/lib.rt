//! Static types of the host: which types of WebAssembly they stand for, how their values become values of WebAssembly and
//! are read back, and the laws of that, on which typed calls rest.
#![tactic(auto)]

mod checks;
mod functions;
pub mod laws;
mod numbers;
mod one;
mod params;
mod results;
mod single_params;
mod single_results;
mod static_type;

pub use checks::TypeCheckPosition;
pub use params::WasmParams;
pub use results::WasmResults;
pub use static_type::WasmTy;
