//! The script of the search box.

/// A script that shows the rows of the routing table that have the typed words. If an IPv4 address
/// is typed, it shows the rows of the networks that contain it, the longest first, which is marked
/// as the best. The typed text is only compared.
pub(crate) const SCRIPT: &str = "'use strict';
const box = document.getElementById('search'), found = document.getElementById('found');
const body = document.querySelector('#table tbody');
const number = text => {
  const octets = /^[0-9]{1,3}([.][0-9]{1,3}){3}$/.test(text) ? text.split('.').map(Number) : [256];
  return octets.every(octet => octet < 256) ? octets.reduce((sum, octet) => sum * 256 + octet) : null;
};
const rows = Array.from(body.rows, row => {
  const [network, length] = row.cells[0].textContent.split('/');
  const size = 2 ** (32 - length), words = Array.from(row.cells, cell => cell.textContent).join(' ');
  return { row, next: row.nextElementSibling, first: number(network), size, words };
});
let moved = [];
const search = () => {
  const typed = box.value.trim().toLowerCase(), address = number(typed), words = typed.split(/ +/);
  for (const { row, next } of moved) body.insertBefore(row, next);
  const hits = rows.filter(({ row, first, size, words: text }) => {
    const hit = address === null ? words.every(word => text.includes(word))
      : first <= address && address < first + size;
    row.hidden = !hit;
    row.classList.remove('best');
    return hit;
  });
  moved = address === null ? [] : hits.slice().reverse();
  body.prepend(...moved.map(({ row }) => row));
  if (moved.length > 0) moved[0].row.classList.add('best');
  found.textContent = typed === '' ? '' : hits.length + ' of ' + rows.length;
};
box.addEventListener('input', search);
search();
";
