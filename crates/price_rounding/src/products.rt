// The upper half of a product.
ghost use Rattle.std.specs.Prelude.{◌≡◌, ◌*◌, ◌/◌, ◌^◌, ◌≤◌};

// 2^32.
const HALF: u64 = 4_294_967_296;

// x y / 2^64, by the halves of x and y: the compiler makes one multiplication of it.
pub fn upper_half(x: u64, y: u64) -> u64
    ensures { (result ≡ x * y / 2 ^ 64) × (result ≤ x) }
{
    let carried = x / HALF * (y % HALF) + x % HALF * (y % HALF) / HALF;
    let middle = x % HALF * (y / HALF) + carried % HALF;
    x / HALF * (y / HALF) + carried / HALF + middle / HALF
}
