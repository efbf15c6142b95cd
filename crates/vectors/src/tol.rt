// The tolerances of tol.rs and lib.rs that the port uses. Millimetres, radians.

// Two points closer than this are one.
pub const LINEAR: f64 = 1e-7;

// A vector no longer than this has no direction.
pub const EPS: f64 = 1e-9;

// A relation holds when its rows are at most this.
pub const ASSEMBLY: f64 = 1e-9;

// A motion is free when it is resisted by less than this part of the stiffest.
pub const DOF_REL: f64 = 1e-7;
