use unit_core::Account;

/// The account of another unit, of which nothing may stay.
pub const OTHER_ACCOUNT: Account = Account {
    loads: 90,
    stores: 91,
    swaps: 92,
    membars: 93,
    drains: 94,
    closed: false,
};
