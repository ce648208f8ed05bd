//! Products and turns that were worked out by hand.

use super::{product_plain, turn_plain};

#[test]
fn products_of_degree_four(rt: HostRuntime) {
    // 1 + 2X + 3X^2 + 4X^3 times 5 + 6X + 7X^2 + 8X^3 is -56 - 36X + 2X^2 + 60X^3 modulo X^4 + 1.
    let mut product = [0; 4];
    product_plain(17, &[1, 2, 3, 4], &[5, 6, 7, 8], &mut product);
    assert_eq!(rt; product, [12, 15, 2, 9]);

    // -1 times -X^3, and words that are not reduced, modulo the greatest odd number below 2^61.
    let q = 2305843009213693951;
    product_plain(q, &[q - 1, 0, 0, 0], &[0, q, 0, 2 * q - 1], &mut product);
    assert_eq!(rt; product, [0, 0, 0, 1]);
}

#[test]
fn product_of_degree_sixteen(rt: HostRuntime) {
    // 3 + X^15 times 2 + X + X^3 is 5 + 3X - X^2 + 3X^3 + 2X^15 modulo X^16 + 1.
    let a = [3, 0, 0, 0, 0, 0, 0, 0, 0, 0, 0, 0, 0, 0, 0, 1];
    let b = [2, 1, 0, 1, 0, 0, 0, 0, 0, 0, 0, 0, 0, 0, 0, 0];
    let mut product = [7; 16];
    product_plain(257, &a, &b, &mut product);
    assert_eq!(rt; product, [5, 3, 256, 3, 0, 0, 0, 0, 0, 0, 0, 0, 0, 0, 0, 2]);
}

#[test]
fn turns(rt: HostRuntime) {
    // 1 + 2X^3 + 3X^6 + 4X^9 is 1 + 4X - 3X^2 + 2X^3 modulo X^4 + 1, and 1 + 2X^7 + 3X^14 + 4X^21 is 1 - 4X - 3X^2 - 2X^3.
    let mut turned = [7; 4];
    turn_plain(17, 3, &[1, 2, 3, 4], &mut turned);
    assert_eq!(rt; turned, [1, 4, 14, 2]);
    turn_plain(17, 7, &[1, 2, 3, 4], &mut turned);
    assert_eq!(rt; turned, [1, 13, 14, 15]);

    // 1 + 2X^15 + 3X^18 + 4X^33 is 1 + 4X - 3X^2 + 2X^15 modulo X^16 + 1.
    let from = [1, 0, 0, 0, 0, 2, 3, 0, 0, 0, 0, 4, 0, 0, 0, 0];
    let mut turned = [7; 16];
    turn_plain(257, 3, &from, &mut turned);
    assert_eq!(rt; turned, [1, 4, 254, 0, 0, 0, 0, 0, 0, 0, 0, 0, 0, 0, 0, 2]);
}
