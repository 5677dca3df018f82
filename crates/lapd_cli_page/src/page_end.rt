/// The end of a page, after the rows of its frames: its script. The script loads nothing, and puts no
/// text of a row into the page but as text.
pub const PAGE_END: &str = r##"null]</script>
<script>
'use strict';

// ---- The data: rows of the program. A number is that of frames that the capture lacks.

const byId = id => document.getElementById(id);
const rows = JSON.parse(byId('data').textContent);
const limit = (rows.find(row => row && row.limit) || {limit: 0}).limit;
const items = [];
for (const row of rows) {
  if (typeof row === 'number') items.push({missing: row});
  if (Array.isArray(row)) items.push(frameOf(row));
}
const frames = items.filter(item => !item.missing);

function frameOf([number, moment, sender, hex, words, user, network, message, cut, ...remarks]) {
  const octets = [];
  for (let i = 0; i < hex.length; i += 2) octets.push(parseInt(hex.slice(i, i + 2), 16));
  const frame = {number, moment, sender, hex, octets, words, user, network, message, cut,
    remarks: remarks.map(([, kind, clause, text]) => ({kind, clause, text}))};
  frame.sapi = octets.length > 0 ? octets[0] >> 2 : -1;
  frame.tei = octets.length > 1 ? octets[1] >> 1 : -1;
  frame.link = octets.length > 1 ? `SAPI ${frame.sapi} TEI ${frame.tei}` : 'no address';
  frame.kind = octets.length < 3 ? '' : octets[2] % 2 === 0 ? 'I' : octets[2] % 4 === 1 ? 'S' : 'U';
  frame.isViolation = frame.remarks.some(remark => remark.kind === 'violation');
  const call = /cr=(\d+) (from|to) origin/.exec(message);
  const origin = call && (call[2] === 'from' ? sender : sender === 'U' ? 'N' : 'U');
  frame.call = call ? `${frame.link}, call ${call[1]} of ${origin === 'U' ? 'user' : 'network'}` : '';
  frame.label = (octets.length > 1 ? `${frame.sapi} ${frame.tei} ` : '') + words;
  frame.text = [frame.label, message, user, network, hex, ...frame.remarks.map(r => r.text)]
    .join(' ').toLowerCase();
  return frame;
}

// ---- Times: microseconds as text, which may be unknown.

const first = frames.find(frame => frame.moment !== '');
const six = micros => (Number(micros) / 1e6).toFixed(6);
function timeOf(frame, before) {
  if (frame.moment === '') return '';
  if (byId('clock').value === 'day') {
    const day = BigInt(frame.moment) % 86400000000n;
    const two = number => String(number).padStart(2, '0');
    return `${two(day / 3600000000n)}:${two(day / 60000000n % 60n)}:` +
      `${two(day / 1000000n % 60n)}.${String(day % 1000000n).padStart(6, '0')}`;
  }
  const from = byId('clock').value === 'delta' ? before : first;
  return six(from ? BigInt(frame.moment) - BigInt(from.moment) : 0n);
}

// ---- The choice of frames.

function isChosen(frame) {
  const words = byId('search').value.trim().toLowerCase();
  if (byId('link').value && frame.link !== byId('link').value) return false;
  if (byId('call').value && frame.call !== byId('call').value) return false;
  if (frame.kind && !byId('kind' + frame.kind).checked) return false;
  if (byId('show').value === 'remarked' && frame.remarks.length === 0) return false;
  if (byId('show').value === 'violation' && !frame.isViolation) return false;
  return words === '' || words.split(/\s+/).every(word => frame.text.includes(word));
}

function fill(select, name, values) {
  const all = new Option(`all ${name}`, '');
  select.replaceChildren(all, ...[...new Set(values)].map(value => new Option(value, value)));
}
fill(byId('link'), 'links', frames.map(frame => frame.link));
fill(byId('call'), 'calls', frames.map(frame => frame.call).filter(call => call));

// ---- The ladder. It is made in pieces, so that the page answers at once.

function element(name, kind, text) {
  const made = document.createElement(name);
  if (kind) made.className = kind;
  if (text !== undefined) made.textContent = text;
  return made;
}

function rowOf(frame, before) {
  const row = element('div', `frame ${frame.sender === '?' ? 'unknown' : frame.sender}`);
  row.tabIndex = -1;
  const between = element('span', 'between');
  const mark = frame.sender === '?' ? '? ' + frame.label + ' ?' : frame.label;
  const words = element('span', 'words');
  words.append(element('span', 'label', mark));
  between.append(words);
  const message = [frame.cut ? '[cut]' : '', frame.message].filter(text => text).join(' ');
  if (message) between.append(element('span', 'note', message));
  for (const remark of frame.remarks) {
    const text = (remark.kind === 'violation' ? 'violation: ' : '') + remark.text;
    between.append(element('span', `note remark ${remark.kind}`, text));
  }
  row.append(element('span', 'number', frame.number), element('span', 'time', timeOf(frame, before)),
    element('span', 'user', frame.user), between, element('span', 'network', frame.network));
  row.onclick = () => choose(frame);
  frame.row = row;
  return row;
}

let shown = [];
let pending = [];
let timer = 0;

function draw() {
  clearTimeout(timer);
  frames.forEach(frame => { frame.row = null; });
  shown = [];
  pending = [];
  const place = byId('frames');
  place.replaceChildren();
  const fold = byId('fold').value;
  const groups = new Map();
  for (const item of items) {
    if (item.missing) {
      if (fold === 'none') pending.push({item, place});
      continue;
    }
    if (!isChosen(item)) continue;
    if (fold === 'call' && !item.call) continue;
    const name = fold === 'none' ? '' : item[fold];
    if (!groups.has(name)) groups.set(name, []);
    groups.get(name).push(item);
    if (fold === 'none') pending.push({item, place});
  }
  if (fold !== 'none') {
    for (const [name, members] of groups) {
      const group = element('details', 'group');
      group.open = groups.size < 20;
      const bad = members.filter(frame => frame.isViolation).length;
      group.append(element('summary', '', `${name}: ${counted(members.length, 'frame')}` +
        (bad ? `, ${counted(bad, 'violation')}` : '')));
      place.append(group);
      for (const item of members) pending.push({item, place: group});
    }
  }
  shown = pending.map(next => next.item).filter(item => !item.missing);
  let before = null;
  for (const next of pending) {
    if (next.item.missing) continue;
    next.before = before;
    if (next.item.moment !== '') before = next.item;
  }
  tell();
  drawNext(300);
}

function drawNext(count) {
  for (const {item, place, before} of pending.splice(0, count)) {
    place.append(item.missing
      ? element('div', 'missing', `${counted(item.missing, 'frame')} missing here`)
      : rowOf(item, before));
  }
  if (chosen && chosen.row) chosen.row.classList.add('chosen');
  if (pending.length > 0) timer = setTimeout(() => drawNext(600), 0);
  else if (limit && frames.length >= limit) {
    byId('frames').append(element('div', 'end',
      `The page ends with the first ${limit} printed frames; --count has another number.`));
  }
}

const counted = (count, name) => `${count.toLocaleString('en')} ${name}${count === 1 ? '' : 's'}`;

function tell() {
  const of = shown.length === frames.length ? '' : ` of ${frames.length.toLocaleString('en')}`;
  const bad = shown.filter(frame => frame.isViolation).length;
  const lacks = items.reduce((sum, item) => sum + (item.missing || 0), 0);
  byId('said').textContent = `${shown.length.toLocaleString('en')}${of} frames` +
    `, ${counted(new Set(shown.map(frame => frame.link)).size, 'link')}` +
    `, ${counted(new Set(shown.map(frame => frame.call).filter(call => call)).size, 'call')}` +
    `, ${counted(bad, 'violation')}` +
    (lacks ? `; the capture lacks ${counted(lacks, 'frame')}` : '') +
    (limit && frames.length >= limit ? `; later frames than the first ${limit} are left out` : '');
}

// ---- The chosen frame: its octets beside their fields.

let chosen = null;

function choose(frame) {
  if (chosen && chosen.row) chosen.row.classList.remove('chosen');
  chosen = frame;
  const aside = byId('details');
  aside.hidden = !frame;
  if (!frame) return;
  while (!frame.row && pending.length > 0) drawNext(600);
  if (frame.row) {
    const group = frame.row.closest('details');
    if (group) group.open = true;
    frame.row.classList.add('chosen');
    frame.row.focus({preventScroll: true});
    frame.row.scrollIntoView({block: 'nearest'});
  }
  const close = element('button', '', 'close');
  close.id = 'close';
  close.onclick = () => choose(null);
  const octets = element('div');
  octets.id = 'octets';
  const spans = frame.octets.map((octet, place) => {
    const span = element('span', '', octet.toString(16).padStart(2, '0'));
    span.title = `octet ${place + 1}`;
    octets.append(span, ' ');
    return span;
  });
  const table = element('table');
  for (const field of fieldsOf(frame)) {
    const row = element('tr');
    row.append(element('th', '', field.name), element('td', '', field.value),
      element('td', 'clause', field.clause));
    const light = on => () => {
      for (let i = field.from; i < field.to; i++) spans[i].classList.toggle('lit', on);
    };
    row.onmouseenter = light(true);
    row.onmouseleave = light(false);
    row.onclick = () => {
      spans.forEach(span => span.classList.remove('lit'));
      light(true)();
    };
    table.append(row);
  }
  const from = {U: 'user to network', N: 'network to user', '?': 'sender not known'}[frame.sender];
  const parts = [close, element('h2', '', `Frame ${frame.number}, ${from}`),
    element('div', '', frame.label)];
  if (frame.moment !== '') {
    const time = new Date(Number(BigInt(frame.moment) / 1000n));
    const text = isNaN(time) ? frame.moment : time.toISOString().slice(0, 19).replace('T', ' ');
    parts.push(element('div', '', `${text}.${String(BigInt(frame.moment) % 1000000n)
      .padStart(6, '0')} UTC`));
  }
  if (frame.cut) parts.push(element('div', 'missing', 'The capture has only its first octets.'));
  if (frame.remarks.length > 0) parts.push(element('h2', '', 'Remarks'));
  for (const remark of frame.remarks) {
    parts.push(element('div', `remark ${remark.kind}`,
      `${remark.kind}: ${remark.text} (Q.921 ${remark.clause})`));
  }
  if (frame.user || frame.network) {
    parts.push(element('h2', '', 'Both ends after it'),
      element('div', '', `user: ${frame.user}`), element('div', '', `network: ${frame.network}`));
  }
  if (frame.message) parts.push(element('h2', '', 'Message'), element('div', '', frame.message));
  aside.replaceChildren(...parts, element('h2', '', `Octets (${frame.octets.length})`), octets,
    element('h2', '', 'Fields'), table);
  aside.scrollTop = 0;
}

const bits = (octet, high, low) => octet >> low & (1 << high - low + 1) - 1;
const unnumbered = {0x6f: 'SABME', 0x0f: 'DM', 0x03: 'UI', 0x43: 'DISC', 0x63: 'UA', 0x87: 'FRMR',
  0xaf: 'XID'};
const supervisory = {1: 'RR', 5: 'RNR', 9: 'REJ'};

// The fields of a frame, with the octets and the clause of each.
function fieldsOf(frame) {
  const fields = [];
  const octets = frame.octets;
  const add = (from, to, name, value, clause) => {
    if (to <= octets.length) fields.push({from, to, name, value: String(value), clause});
  };
  const hexOf = (from, to) =>
    octets.slice(from, to).map(octet => octet.toString(16).padStart(2, '0')).join(' ');
  if (octets.length < 1) return fields;
  add(0, 1, 'SAPI', frame.sapi, 'Q.921 3.3.3');
  const role = /F=/.test(frame.words) && !/P\/F=/.test(frame.words) ? ', response'
    : /P=/.test(frame.words) ? ', command' : '';
  add(0, 1, 'C/R', bits(octets[0], 1, 1) + role, 'Q.921 3.3.2');
  add(0, 1, 'EA', bits(octets[0], 0, 0), 'Q.921 3.3.1');
  if (octets.length < 2) return fields;
  add(1, 2, 'TEI', frame.tei, 'Q.921 3.3.4');
  add(1, 2, 'EA', bits(octets[1], 0, 0), 'Q.921 3.3.1');
  if (octets.length < 3) return fields;
  let at = 3;
  if (frame.kind === 'U') {
    add(2, 3, 'frame', unnumbered[octets[2] & 0xef] || 'not defined', 'Q.921 3.4, Table 5');
    add(2, 3, 'P/F', bits(octets[2], 4, 4), 'Q.921 3.5.1');
  } else {
    at = 4;
    const name = frame.kind === 'I' ? 'I' : supervisory[octets[2]] || 'not defined';
    add(2, 3, 'frame', name, 'Q.921 3.4, Table 5');
    if (frame.kind === 'I') add(2, 3, 'N(S)', octets[2] >> 1, 'Q.921 3.5.2.4');
    add(3, 4, 'N(R)', octets[3] >> 1, 'Q.921 3.5.2.6');
    add(3, 4, 'P/F', octets[3] & 1, 'Q.921 3.5.1');
  }
  if (octets.length <= at) return fields;
  if (frame.sapi === 63 && octets[at] === 0x0f) addManagement(at, octets, add);
  else if (frame.sapi === 0 && octets[at] === 0x08) addCall(at, octets, add, hexOf);
  else add(at, octets.length, 'information', hexOf(at, octets.length), 'Q.921 3.6.1');
  return fields;
}

const managementNames = {1: 'identity request', 2: 'identity assigned', 3: 'identity denied',
  4: 'identity check request', 5: 'identity check response', 6: 'identity remove',
  7: 'identity verify'};

function addManagement(at, octets, add) {
  add(at, at + 1, 'management entity', octets[at], 'Q.921 5.3.6.2');
  add(at + 1, at + 3, 'Ri', ((octets[at + 1] << 8) + octets[at + 2]).toString(16).padStart(4, '0'),
    'Q.921 5.3.6.3');
  add(at + 3, at + 4, 'message type', managementNames[octets[at + 3]] || octets[at + 3],
    'Q.921 5.3.6.4');
  add(at + 4, at + 5, 'Ai', octets[at + 4] >> 1, 'Q.921 5.3.6.5');
}

const messageNames = {1: 'ALERTING', 2: 'CALL PROCEEDING', 3: 'PROGRESS', 5: 'SETUP', 7: 'CONNECT',
  0x0d: 'SETUP ACKNOWLEDGE', 0x0f: 'CONNECT ACKNOWLEDGE', 0x20: 'USER INFORMATION',
  0x21: 'SUSPEND REJECT', 0x22: 'RESUME REJECT', 0x25: 'SUSPEND', 0x26: 'RESUME',
  0x2d: 'SUSPEND ACKNOWLEDGE', 0x2e: 'RESUME ACKNOWLEDGE', 0x45: 'DISCONNECT', 0x46: 'RESTART',
  0x4d: 'RELEASE', 0x4e: 'RESTART ACKNOWLEDGE', 0x5a: 'RELEASE COMPLETE', 0x60: 'SEGMENT',
  0x6e: 'NOTIFY', 0x75: 'STATUS ENQUIRY', 0x79: 'CONGESTION CONTROL', 0x7b: 'INFORMATION',
  0x7d: 'STATUS'};

const elementNames = {0x00: ['segmented message', '4.5.26'], 0x04: ['bearer capability', '4.5.5'],
  0x08: ['cause', '4.5.12'], 0x10: ['call identity', '4.5.6'], 0x14: ['call state', '4.5.7'],
  0x18: ['channel identification', '4.5.13'], 0x1c: ['facility', 'Q.932'],
  0x1e: ['progress indicator', '4.5.23'], 0x20: ['network-specific facilities', '4.5.21'],
  0x27: ['notification indicator', '4.5.22'], 0x28: ['display', '4.5.16'],
  0x29: ['date/time', '4.5.15'], 0x2c: ['keypad facility', '4.5.18'], 0x34: ['signal', '4.5.28'],
  0x6c: ['calling party number', '4.5.10'], 0x6d: ['calling party subaddress', '4.5.11'],
  0x70: ['called party number', '4.5.8'], 0x71: ['called party subaddress', '4.5.9'],
  0x78: ['transit network selection', '4.5.29'], 0x79: ['restart indicator', '4.5.25'],
  0x7c: ['low layer compatibility', '4.5.19'], 0x7d: ['high layer compatibility', '4.5.17'],
  0x7e: ['user-user', '4.5.30']};

function addCall(at, octets, add, hexOf) {
  add(at, at + 1, 'protocol discriminator', octets[at], 'Q.931 4.2');
  const length = octets[at + 1] & 0x0f;
  const type = at + 2 + length;
  let reference = 'dummy';
  if (length > 0 && type <= octets.length) {
    let value = octets[at + 2] & 0x7f;
    for (let i = at + 3; i < type; i++) value = value * 256 + octets[i];
    reference = `${value}, ${octets[at + 2] & 0x80 ? 'to' : 'from'} origin`;
  }
  add(at + 1, type, 'call reference', reference, 'Q.931 4.3');
  add(type, type + 1, 'message type', messageNames[octets[type]] || octets[type], 'Q.931 4.4');
  let place = type + 1;
  while (place < octets.length) {
    const identifier = octets[place];
    if (identifier & 0x80) {
      const named = identifier === 0xa1 ? ['sending complete', '4.5.27']
        : identifier >> 4 === 9 ? ['shift', '4.5.2'] : ['single octet', '4.5.1'];
      add(place, place + 1, named[0], hexOf(place, place + 1), `Q.931 ${named[1]}`);
      place += 1;
      continue;
    }
    const end = Math.min(octets.length, place + 2 + (octets[place + 1] || 0));
    const [name, clause] = elementNames[identifier] || [`element ${identifier}`, '4.5.1'];
    const said = clause.startsWith('Q') ? clause : `Q.931 ${clause}`;
    add(place, end, name, valueOf(identifier, octets.slice(place + 2, end)), said);
    place = end;
  }
}

// The content of an information element: text where it is text, and its octets.
function valueOf(identifier, octets) {
  const hex = octets.map(octet => octet.toString(16).padStart(2, '0')).join(' ');
  const letters = list => list.map(octet => octet > 31 && octet < 127
    ? String.fromCharCode(octet) : '?').join('');
  const behind = list => list.slice(list.findIndex(octet => octet & 0x80) + 1);
  if (identifier === 0x28 || identifier === 0x2c) return letters(octets);
  if (identifier === 0x6c || identifier === 0x70) return letters(behind(octets));
  if (identifier === 0x08) {
    const rest = behind(octets);
    return rest.length > 0 ? `${rest[0] & 0x7f} (${hex})` : hex;
  }
  return hex;
}

// ---- Keys.

const keys = 'j k or arrows: next and previous frame\nv V: next and previous violation\n' +
  '/: search\nf: fold by link, by call, by nothing\nEscape: close';

function move(step, isWanted) {
  let place = chosen ? shown.indexOf(chosen) : step > 0 ? -1 : shown.length;
  do place += step; while (shown[place] && !isWanted(shown[place]));
  if (shown[place]) choose(shown[place]);
}

document.onkeydown = event => {
  const isTyping = event.target.matches('input[type=search], select');
  if (event.key === 'Escape') {
    event.target.blur();
    choose(null);
  }
  if (isTyping || event.ctrlKey || event.metaKey || event.altKey) return;
  const any = () => true;
  const bad = frame => frame.isViolation;
  const actions = {j: () => move(1, any), ArrowDown: () => move(1, any), k: () => move(-1, any),
    ArrowUp: () => move(-1, any), v: () => move(1, bad), V: () => move(-1, bad),
    '/': () => byId('search').focus(), f: () => nextFold()};
  if (!actions[event.key]) return;
  event.preventDefault();
  actions[event.key]();
};

function nextFold() {
  const fold = byId('fold');
  fold.selectedIndex = (fold.selectedIndex + 1) % fold.length;
  draw();
}

byId('help').onclick = () => {
  const text = element('div', '', keys);
  text.id = 'keys';
  byId('details').hidden = false;
  byId('details').replaceChildren(element('h2', '', 'Keys'), text);
};
for (const id of ['link', 'call', 'kindI', 'kindS', 'kindU', 'show', 'fold', 'clock']) {
  byId(id).onchange = draw;
}
let typing = 0;
byId('search').oninput = () => {
  clearTimeout(typing);
  typing = setTimeout(draw, 150);
};
window.onbeforeprint = () => {
  while (pending.length > 0) drawNext(600);
};
const fit = () => document.documentElement.style.setProperty('--top',
  `${document.querySelector('header').offsetHeight}px`);
window.onresize = fit;
draw();
fit();
</script>
</body>
</html>
"##;
