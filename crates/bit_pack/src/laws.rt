//! Facts about packed bytes and the hybrid alone, which no code computes.

ghost use Rattle.std.specs.Prelude.{◌≡◌, ◌⊎◌, ℕ, List, length};
ghost use Rattle.bit_pack.specs.Bits.{Packed};
ghost use Rattle.bit_pack.specs.Hybrid.{HasLargeHeader, EndsEarly, HasWideValue, Reads, StopsAt};

/// Bytes begin with at most one list of so many values of a width, so what was packed is what is unpacked.
pub fn one_unpacking()
    ensures { (width : ℕ) (bytes first second : List ℕ) → length first ≡ length second → Packed width bytes first → Packed width bytes second → first ≡ second }
{}

/// Bytes hold at most one list of so many values, so what was written is what is read. Where they hold one, reading
/// comes to no fault.
pub fn one_reading()
    ensures one { (width count : ℕ) (bytes first second : List ℕ) → Reads width bytes count first → Reads width bytes count second → first ≡ second }
    ensures large { (width count : ℕ) (bytes values : List ℕ) → Reads width bytes count values → StopsAt width bytes count HasLargeHeader → ⊥ }
    ensures short { (width count : ℕ) (bytes values : List ℕ) → Reads width bytes count values → StopsAt width bytes count (EndsEarly width) → ⊥ }
    ensures wide { (width count : ℕ) (bytes values : List ℕ) → Reads width bytes count values → StopsAt width bytes count (HasWideValue width) → ⊥ }
{}

/// Reading comes to at most one sort of fault, so the fault that it gives is the first one.
pub fn one_fault()
    ensures large_short { (width count : ℕ) (bytes : List ℕ) → StopsAt width bytes count HasLargeHeader → StopsAt width bytes count (EndsEarly width) → ⊥ }
    ensures large_wide { (width count : ℕ) (bytes : List ℕ) → StopsAt width bytes count HasLargeHeader → StopsAt width bytes count (HasWideValue width) → ⊥ }
    ensures short_wide { (width count : ℕ) (bytes : List ℕ) → StopsAt width bytes count (EndsEarly width) → StopsAt width bytes count (HasWideValue width) → ⊥ }
{}
